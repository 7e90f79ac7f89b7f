// The lines that a removal leaves, from an accepted record's skeleton block: the block with them alone, measured or put. A line's
// bits are copied as they stand.
#![tactic(auto)]

ghost use Rattle.std.specs.Prelude.{◌≡◌, ◌+◌, ◌*◌, ◌≤◌};
ghost use Rattle.order_lines.specs.Copy.{CopyThere, Copied};
ghost use Rattle.order_lines.specs.Lines.{LinesToKeep, LinesSized, LinesPutThere, LinesPut};

use bits::{Cursor, wide};
use find_parts::line::line_end;
use format::Widths;
use order_removal::rank_of;
use put_bits::put_bits;

// The n bits of `block` from place p on, put at place `at` of `out`; the answer is the place behind them.
fn copy_few(out: &mut [u8], at: usize, block: &[u8], p: usize, n: usize) -> usize
    requires { CopyThere block.now p (p + n) out.old at × (n ≤ 16) }
    ensures { Copied block.now p (p + n) out.old at out.new result }
{
    let bits = Cursor { at: p }.sure(block, n);
    put_bits(out, at, bits.value, n)
}

// The bits of `block` from place p on, as many as `count` bytes have, stored from byte a of `out` on. What one byte takes lies in one byte
// of the block or in two; a single one stands for both, and what is too much is shifted out.
fn copy_bytes(out: &mut [u8], a: usize, block: &[u8], p: usize, count: usize)
    requires { CopyThere block.now p (p + 8 * count) out.old (8 * a) }
    ensures { Copied block.now p (p + 8 * count) out.old (8 * a) out.new (8 * (a + count)) }
{
    let first = p / 8;
    let last = (p + 7) / 8;
    for i in 0..count {
        let two = wide(block[first + i]) * 256 + wide(block[last + i]);
        out[a + i] = (two << (p % 8 + 48) >> 56) as u8;
    }
}

// The bits of `block` from place p up to place `end`, put at place `at` of `out`: those that fill up its byte under way, then whole
// bytes, then the rest. The answer is the place behind them.
pub fn copy_bits(out: &mut [u8], at: usize, block: &[u8], p: usize, end: usize) -> usize
    requires { CopyThere block.now p end out.old at }
    ensures { Copied block.now p end out.old at out.new result }
{
    let few = (end - p).min((8 - at % 8) % 8);
    let q = copy_few(out, at, block, p, few);
    let from = p + few;
    if from == end {
        return q;
    }
    let count = (end - from) / 8;
    copy_bytes(out, q / 8, block, from, count);
    copy_few(
        out,
        q + 8 * count,
        block,
        from + 8 * count,
        end - from - 8 * count,
    )
}

// How many bytes the new skeleton block has. The old one is `block`, of `count` lines; the removal leaves some of them.
pub fn lines_size(block: &[u8], w: Widths, count: usize, removal: &[u8]) -> usize
    requires { LinesToKeep w block.now count removal.now }
    ensures { LinesSized w block.now count removal.now result }
{
    let mut p = 0;
    let mut bits = 0;
    for l in 0..count {
        let from = p;
        p = line_end(block, from, w);
        if rank_of(removal, l).is_err() {
            bits += p - from;
        }
    }
    (bits + 7) / 8
}

// The new skeleton block, put at the start of `out`; the answer is how many bytes it has.
pub fn lines_put(out: &mut [u8], block: &[u8], w: Widths, count: usize, removal: &[u8]) -> usize
    requires { LinesPutThere w block.now count removal.now out.old }
    ensures { LinesPut w block.now count removal.now out.old out.new result }
{
    let mut q = 0;
    let mut p = 0;
    for l in 0..count {
        let from = p;
        p = line_end(block, from, w);
        if rank_of(removal, l).is_err() {
            q = copy_bits(out, q, block, from, p);
        }
    }
    (q + 7) / 8
}
