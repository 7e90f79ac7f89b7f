// A new record put together from an old one, around a part that is new: the old one's first bytes with another record length, then the
// new part, then the rest of the old one. Whoever writes a new part lays the first bytes here and copies the rest behind it.
#![tactic(auto)]

ghost use Rattle.put_record.specs.Head.{HeadRoom, HeadLaid};

use put_bytes::{copy, put_two};

// The first bytes of the record `old`, up to byte `to`, with the record length `bytes`.
pub fn head_put(out: &mut [u8], old: &[u8], to: usize, bytes: usize) -> usize
    requires { HeadRoom old.now to bytes out.old }
    ensures { HeadLaid old.now to bytes out.old out.new result }
{
    let mut at = copy(out, &old[0..10]);
    at += put_two(&mut out[at..], bytes);
    at += copy(&mut out[at..], &old[12..to]);
    at
}
