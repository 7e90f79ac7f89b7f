// The record with one payload rewritten, put together from the old one: its bytes up to the payload, the payload, which whoever calls
// lays, and what follows the old payload. Its size and the room that is lent are judged before anything is written.
#![tactic(auto)]

ghost use Rattle.std.specs.Prelude.{◌≡◌, ◌^◌, ◌≤◌};
ghost use Rattle.std.specs.Fn.{FnOnceTakesAtMut, FnOnceReturnsAtMut};
ghost use Rattle.rewrite_put.specs.Front.{new_length, SpotIn, FrontRoom, FrontLaid};
ghost use Rattle.rewrite_put.specs.Put.{RecordRoom, RecordPut};

use find_segment::Spot;
use format::Header;
use outcome::{Refusal, Refused};
use put_bytes::{copy, put_two};
use put_record::head_put;

// How many bytes the record has with a payload of `size` bytes.
pub fn new_length(old: &[u8], spot: Spot, size: usize) -> usize
    requires { SpotIn old.now spot × (size ≤ 2 ^ 32) }
    ensures { result ≡ new_length old.now spot size }
{
    old.len() - (spot.payload.to - spot.payload.from) + size
}

// Its bytes up to the payload: the record length, the extended length and the segment's length are others.
pub fn front_put(out: &mut [u8], old: &[u8], spot: Spot, size: usize) -> usize
    requires { FrontRoom old.now spot size out.old }
    ensures { FrontLaid old.now spot size out.old out.new result }
{
    let extended = spot.extended.from;
    let payload = spot.payload.from;
    let dropped = spot.payload.to - payload;
    let mut at = head_put(out, old, extended - 2, old.len() - dropped + size);
    at += put_two(&mut out[at..], spot.extended.to - extended - dropped + size);
    at += copy(&mut out[at..], &old[extended..payload - 2]);
    at += put_two(&mut out[at..], 4 + size);
    at
}

// The record with a payload of `size` bytes, which `put` lays.
pub fn record_put<F: FnOnce(&mut [u8]) -> usize>(
    out: &mut [u8],
    old: &[u8],
    spot: Spot,
    size: usize,
    put: F,
) -> Result<usize, Refused>
    requires { RecordRoom old.now spot size (FnOnceTakesAtMut F.FnOnce put) (FnOnceReturnsAtMut F.FnOnce put) }
    ensures { RecordPut old.now spot size (FnOnceReturnsAtMut F.FnOnce put) out.old out.new result }
{
    let length = new_length(old, spot, size);
    if Header::MOST_BYTES < length {
        return Err(Refusal::TooLong.into());
    }
    if out.len() < length {
        return Err(Refusal::NoRoom.into());
    }
    let to = spot.payload.to;
    let mut at = front_put(out, old, spot, size);
    at += put(&mut out[at..]);
    at += copy(&mut out[at..], &old[to..]);
    Ok(at)
}
