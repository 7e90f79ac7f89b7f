// A record's sheet: judged first, with the bytes that its sheet takes; then written, where there is room.
#![tactic(auto)]

ghost use Rattle.outcome.specs.Outcome.{Answers};
ghost use Rattle.outcome.specs.Why.{answer_of};
ghost use Rattle.sheet.specs.Sheet.{reading};

use judge::judge;
use outcome::{Answer, Refusal, Refused};
use read_views::record::sheet_out;

pub fn read(bytes: &[u8], sheet: &mut [u8]) -> Answer
    ensures { Answers (reading bytes.now) sheet.old sheet.new result }
{
    Answer::of(read_out(bytes, sheet))
}

// How many bytes the sheet has: 1 to 12, 20.
fn read_out(bytes: &[u8], sheet: &mut [u8]) -> Result<usize, Refused>
    ensures { Answers (reading bytes.now) sheet.old sheet.new (answer_of result) }
{
    let record = judge(bytes)?;
    if sheet.len() < record.size {
        return Err(Refusal::NoRoom.into());
    }
    Ok(sheet_out(sheet, bytes, record.header.scale.widths, record.views))
}
