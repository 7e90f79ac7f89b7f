// Local quality read: the values of a segment's payload, a byte per cell. The segment is found, its type and its payload are judged,
// and then the room that is lent.
#![tactic(auto)]

ghost use Rattle.outcome.specs.Outcome.{Answers};
ghost use Rattle.outcome.specs.Why.{answer_of};
ghost use Rattle.quality.specs.Quality.{quality};

use find_segment::find_segment;
use format::{SegmentType, ViewName};
use outcome::{Answer, Refusal, Refused};
use quality_values::{judge_payload, put_values};

// How many values are given.
fn read_quality(
    bytes: &[u8],
    view: ViewName,
    place: usize,
    out: &mut [u8],
) -> Result<usize, Refused>
    ensures { Answers (quality view place bytes.now) out.old out.new (answer_of result) }
{
    let spot = find_segment(bytes, view, place)?;
    if spot.kind != SegmentType::LOCAL_QUALITY {
        return Err(Refusal::BadQuality.into());
    }
    let payload = &bytes[spot.payload.from..spot.payload.to];
    let grid = judge_payload(payload, spot.image).ok_or(Refusal::BadQuality)?;
    if out.len() < 3 + grid.cells {
        return Err(Refusal::NoRoom.into());
    }
    Ok(put_values(out, payload, grid))
}

// The payload's first three bytes and a byte per cell, of any bytes: 1 to 13, 23, 24, 20.
pub fn quality(bytes: &[u8], view: ViewName, place: usize, out: &mut [u8]) -> Answer
    ensures { Answers (quality view place bytes.now) out.old out.new result }
{
    Answer::of(read_quality(bytes, view, place, out))
}
