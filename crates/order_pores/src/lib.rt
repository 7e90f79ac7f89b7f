// The pores that a removal leaves, from a payload that is known to be right: the payload of the lines that stay, measured or put. A
// line's elements are copied as they stand, with its zero element.
#![tactic(auto)]

ghost use Rattle.order_pores.specs.Kept.{PoresToKeep, PoresSized, PoresPutThere, PoresPut};

use bits::Cursor;
use order_lines::copy_bits;
use order_removal::rank_of;
use pores_lines::line_at;

// How many bytes the new payload has. The old one is `payload`, of a view with `lines` lines.
pub fn pores_size(payload: &[u8], lines: usize, removal: &[u8]) -> usize
    requires { PoresToKeep payload.now lines removal.now }
    ensures { PoresSized payload.now lines removal.now result }
{
    let e = Cursor { at: 16 }.sure(payload, 8).value;
    let mut p = 24;
    let mut bits = 24;
    for l in 0..lines {
        let from = p;
        p = line_at(payload, from, e).unwrap().next;
        if rank_of(removal, l).is_err() {
            bits += p - from;
        }
    }
    (bits + 7) / 8
}

// The new payload, put at the start of `out`; the answer is how many bytes it has. Measuring shares two lines of the loop with this, to
// the next line's end and whether it stays: a walk for both, with what it is handed, is longer than the two loops.
pub fn pores_put(out: &mut [u8], payload: &[u8], lines: usize, removal: &[u8]) -> usize
    requires { PoresPutThere payload.now lines removal.now out.old }
    ensures { PoresPut payload.now lines removal.now out.old out.new result }
{
    let e = Cursor { at: 16 }.sure(payload, 8).value;
    let mut q = copy_bits(out, 0, payload, 0, 24);
    let mut p = 24;
    for line in 0..lines {
        let from = p;
        p = line_at(payload, from, e).unwrap().next;
        if rank_of(removal, line).is_err() {
            q = copy_bits(out, q, payload, from, p);
        }
    }
    (q + 7) / 8
}
