// Sweat pores read: the resolution, e and the distances of a segment's payload, 32 bits each as bytes. The segment is found, its type
// and its payload are judged, and then the room that is lent.
#![tactic(auto)]

ghost use Rattle.outcome.specs.Outcome.{AnswersInFours};
ghost use Rattle.outcome.specs.Why.{answer_of};
ghost use Rattle.pores.specs.Calls.{pores};

use find_segment::{find_segment, lines_of};
use format::{SegmentType, ViewName};
use outcome::{Answer, Refusal, Refused};
use pores_judge::judge_payload;
use pores_values::put_numbers;

// How many numbers are given.
fn read_pores(bytes: &[u8], view: ViewName, place: usize, out: &mut [u8]) -> Result<usize, Refused>
    ensures { AnswersInFours (pores view place bytes.now) out.old out.new (answer_of result) }
{
    let spot = find_segment(bytes, view, place)?;
    if spot.kind != SegmentType::PORES {
        return Err(Refusal::BadPores.into());
    }
    let payload = spot.payload.of(bytes);
    let lines = lines_of(bytes, spot);
    let judged = judge_payload(payload, lines).ok_or(Refusal::BadPores)?;
    if out.len() / 4 < judged.numbers {
        return Err(Refusal::NoRoom.into());
    }
    Ok(put_numbers(out, payload, lines, judged.e))
}

// The resolution, e, and per line a count and that many distances, of any bytes: 1 to 13, 23, 26, 20. Bytes short of a number stay.
pub fn pores(bytes: &[u8], view: ViewName, place: usize, out: &mut [u8]) -> Answer
    ensures { AnswersInFours (pores view place bytes.now) out.old out.new result }
{
    Answer::of(read_pores(bytes, view, place, out))
}
