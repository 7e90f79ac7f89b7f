// A sheet's record: the sheet is judged first, with the views and bytes that its record has; then the record is put together, where
// there is room.
#![tactic(auto)]

ghost use Rattle.outcome.specs.Outcome.{Answers};
ghost use Rattle.outcome.specs.Why.{answer_of};
ghost use Rattle.sheet.specs.Sheet.{writing};
ghost use Rattle.writing.specs.JudgedSheet.{InOrder, SheetIs};

use check_fields::whole;
use check_shape::shape;
use check_values::{Valued, values};
use format::Header;
use outcome::{Answer, Refusal, Refused};
use write_views::record::record_out;

// Whether no field is cut and the fields obey the grammar.
fn in_order(sheet: &[u8]) -> bool
    ensures { InOrder sheet.now result }
{
    whole(sheet) && shape(sheet)
}

// 21 over the whole sheet, 22 over the whole sheet, 19.
fn judge_sheet(sheet: &[u8]) -> Result<Valued, Refusal>
    ensures { SheetIs sheet.now result }
{
    if !in_order(sheet) {
        return Err(Refusal::BadSheet);
    }
    let record = values(sheet).ok_or(Refusal::BadValue)?;
    if Header::MOST_BYTES < record.bytes {
        return Err(Refusal::TooLong);
    }
    Ok(record)
}

// How many bytes the record has: 21, 22, 19, 20.
fn write_out(sheet: &[u8], bytes: &mut [u8]) -> Result<usize, Refused>
    ensures { Answers (writing sheet.now) bytes.old bytes.new (answer_of result) }
{
    let record = judge_sheet(sheet)?;
    if bytes.len() < record.bytes {
        return Err(Refusal::NoRoom.into());
    }
    Ok(record_out(bytes, sheet, record.bytes, record.views))
}

pub fn write(sheet: &[u8], bytes: &mut [u8]) -> Answer
    ensures { Answers (writing sheet.now) bytes.old bytes.new result }
{
    Answer::of(write_out(sheet, bytes))
}
