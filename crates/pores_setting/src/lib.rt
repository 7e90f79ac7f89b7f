// Pores rewritten: the record with a segment's payload made from numbers, four bytes each. The segment is found, its type and the
// numbers are judged, then the size of the new record and the room that is lent. Only then is anything written. The payload that is
// stored is not judged.
#![tactic(auto)]

ghost use Rattle.std.specs.Prelude.{◌≡◌};
ghost use Rattle.outcome.specs.Outcome.{Answers};
ghost use Rattle.outcome.specs.Why.{answer_of};
ghost use Rattle.pores.specs.Calls.{set_pores};
ghost use Rattle.pores_setting.specs.Setting.{counted_size, FewElements};

use find_segment::{find_segment, lines_of};
use format::{SegmentType, ViewName};
use outcome::{Answer, Refusal, Refused};
use pores_numbers::judge_numbers;
use pores_payload::put_payload;
use rewrite_put::record_put;

// How many bytes the payload has: the first three, and the elements' bits up to a whole byte.
fn payload_size(e: usize, elements: usize) -> usize
    requires { FewElements e elements }
    ensures { result ≡ counted_size e elements }
{
    3 + (elements * e + 7) / 8
}

// How many bytes the new record has.
fn set_payload(
    bytes: &[u8],
    view: ViewName,
    place: usize,
    values: &[u8],
    out: &mut [u8],
) -> Result<usize, Refused>
    ensures { Answers (set_pores view place values.now bytes.now) out.old out.new (answer_of result) }
{
    let spot = find_segment(bytes, view, place)?;
    if spot.kind != SegmentType::PORES {
        return Err(Refusal::BadPores.into());
    }
    let lines = lines_of(bytes, spot);
    let judged = judge_numbers(values, lines).ok_or(Refusal::BadPores)?;
    let size = payload_size(judged.e, judged.elements);
    record_put(out, bytes, spot, size, |rest| {
        put_payload(rest, values, lines, judged.e)
    })
}

// The record with that payload, of any bytes: 1 to 13, 23, 26, 19, 20.
pub fn set_pores(
    bytes: &[u8],
    view: ViewName,
    place: usize,
    values: &[u8],
    out: &mut [u8],
) -> Answer
    ensures { Answers (set_pores view place values.now bytes.now) out.old out.new result }
{
    Answer::of(set_payload(bytes, view, place, values, out))
}
