// The record of a card's object: the object is judged, then its value is laid down as a view, behind a header of its own.
#![tactic(auto)]

ghost use Rattle.std.specs.Prelude.{◌+◌, ◌≤◌, ◌<◌, length};
ghost use Rattle.put_bytes.specs.Laid.{Laid};
ghost use Rattle.outcome.specs.Outcome.{Answers};
ghost use Rattle.outcome.specs.Why.{answer_of};
ghost use Rattle.find_parts.specs.Stored.{scale_bytes};
ghost use Rattle.card.specs.Card.{card_read};
ghost use Rattle.card_reading.specs.Reading.{NarrowWidths, SmallScale, CardFound, head_for, record_for, RecordRoom, RecordGiven};

use card::scale_of;
use card_lines::judge_lines;
use card_shape::{Value, shape_of};
use format::{Header, Scale, Widths};
use judge_blocks::index::judge_index;
use outcome::{Answer, Refusal, Refused};
use put_bytes::{copy, put_three, put_two};

// The value of an object whose shape, lines and index are right: 27, then 8 to 10.
fn judge_card(object: &[u8], w: Widths) -> Result<Value, Refused>
    requires { NarrowWidths w }
    ensures { CardFound w object.now result }
{
    let Some(value) = shape_of(object) else {
        return Err(Refusal::BadObject.into());
    };
    let from = value.from + 6;
    let to = value.index;
    let lines = match judge_lines(&object[from..to], w) {
        Ok(lines) => lines,
        Err(fault) => {
            return Err(Refused {
                why: fault.why,
                place: (8 * from + fault.place) as u32,
            });
        }
    };
    let first = to + 2;
    let end = value.to;
    if let Err(p) = judge_index(&object[first..end], lines) {
        return Err(Refused {
            why: Refusal::BadIndex,
            place: (8 * first + p) as u32,
        });
    }
    Ok(value)
}

// Bytes 15 to 21 of a record, two at a time behind the first.
fn put_scale(out: &mut [u8], s: Scale) -> usize
    requires { (7 ≤ length out.old) × SmallScale s }
    ensures { Laid (scale_bytes s) out.old out.new result }
{
    let w = s.widths;
    let mut at = put_three(out, s.points, w.c * 256 + w.b);
    at += put_two(&mut out[at..], w.k * 256 + s.step);
    at += put_two(&mut out[at..], s.ratio * 256 + s.half);
    at
}

// The header of a record with `bytes` bytes and one view, and the first four bytes of that view.
fn head_put(out: &mut [u8], s: Scale, bytes: usize) -> usize
    requires { (28 ≤ length out.old) × SmallScale s × (bytes < 65536) }
    ensures { Laid (head_for s bytes) out.old out.new result }
{
    let mut at = copy(out, b"FSK\x00010\x00\x00\x00");
    at += put_two(&mut out[at..], bytes);
    at += copy(&mut out[at..], b"\x00\x00\x01");
    at += put_scale(&mut out[at..], s);
    at += copy(&mut out[at..], b"\x00\x00\x00\x00\x00\x00");
    at
}

// The record of one view, which has this value and else zeros.
fn record_put(out: &mut [u8], value: &[u8], s: Scale) -> usize
    requires { RecordRoom value.now s out.old }
    ensures { Laid (record_for s value.now) out.old out.new result }
{
    let mut at = head_put(out, s, 30 + value.len());
    at += copy(&mut out[at..], value);
    at += put_two(&mut out[at..], 0);
    at
}

// The same, where it is short enough and there is room: 19, 20.
fn record_given(out: &mut [u8], value: &[u8], s: Scale) -> Result<usize, Refused>
    requires { SmallScale s }
    ensures { RecordGiven value.now s out.old out.new (answer_of result) }
{
    if Header::MOST_BYTES - 30 < value.len() {
        return Err(Refusal::TooLong.into());
    }
    if out.len() < 30 + value.len() {
        return Err(Refusal::NoRoom.into());
    }
    Ok(record_put(out, value, s))
}

// The record of any bytes and any size: 27, 8 to 10, 19, 20.
fn read_card(size: u32, object: &[u8], out: &mut [u8]) -> Result<usize, Refused>
    ensures { Answers (card_read size object.now) out.old out.new (answer_of result) }
{
    let scale = scale_of(size).ok_or(Refusal::BadObject)?;
    let value = judge_card(object, scale.widths)?;
    record_given(out, &object[value.from..value.to], scale)
}

// The same, as a call answers.
pub fn card_read(size: u32, object: &[u8], out: &mut [u8]) -> Answer
    ensures { Answers (card_read size object.now) out.old out.new result }
{
    Answer::of(read_card(size, object, out))
}
