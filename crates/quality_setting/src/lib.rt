// Local quality rewritten: the record with a segment's payload made from values, a byte per cell. The segment is found, its type and
// the values are judged, then the size of the new record and the room that is lent. Only then is anything written. The payload that is
// stored is not judged.
#![tactic(auto)]

ghost use Rattle.outcome.specs.Outcome.{Answers};
ghost use Rattle.outcome.specs.Why.{answer_of};
ghost use Rattle.quality.specs.Quality.{set_quality};

use find_segment::find_segment;
use format::{SegmentType, ViewName};
use outcome::{Answer, Refusal, Refused};
use quality_cells::payload_size;
use quality_payload::{judge_values, put_payload};
use rewrite_put::record_put;

// How many bytes the new record has.
fn set_payload(
    bytes: &[u8],
    view: ViewName,
    place: usize,
    values: &[u8],
    out: &mut [u8],
) -> Result<usize, Refused>
    ensures { Answers (set_quality view place values.now bytes.now) out.old out.new (answer_of result) }
{
    let spot = find_segment(bytes, view, place)?;
    if spot.kind != SegmentType::LOCAL_QUALITY {
        return Err(Refusal::BadQuality.into());
    }
    let grid = judge_values(values, spot.image).ok_or(Refusal::BadQuality)?;
    record_put(out, bytes, spot, payload_size(grid), |rest| {
        put_payload(rest, values, grid)
    })
}

// The record with that payload, of any bytes: 1 to 13, 23, 24, 19, 20.
pub fn set_quality(
    bytes: &[u8],
    view: ViewName,
    place: usize,
    values: &[u8],
    out: &mut [u8],
) -> Answer
    ensures { Answers (set_quality view place values.now bytes.now) out.old out.new result }
{
    Answer::of(set_payload(bytes, view, place, values, out))
}
