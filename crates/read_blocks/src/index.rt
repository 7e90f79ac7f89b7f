// The 04 and the 05 fields: w, and each line's neighbours by number. The judge has accepted the block, so every field that is read is
// there, and no difference is more than the number before it.
ghost use Rattle.std.specs.Prelude.{ℕ, ◌*◌, ◌≤◌, ◌<◌, length};
ghost use Rattle.bits.specs.Codec.{along_dec};
ghost use Rattle.bits.specs.Lists.{total};
ghost use Rattle.format.specs.Index.{neighbours, up};
ghost use Rattle.format.specs.SheetSize.{list_size};
ghost use Rattle.put_bytes.specs.HighFirst.{two, joined};
ghost use Rattle.sheet_bytes.specs.Bytes.{list_bytes};
ghost use Rattle.read_blocks.specs.BlockOuts.{IndexToRead, IndexOut};
ghost use Rattle.read_blocks.specs.ListOuts.{ValueThere, ValueOut, numbers_dec};

use crate::Moved;
use bits::Cursor;
use put_bytes::{copy, put_three, put_two};

// Line l's neighbours by number, from n differences of w bits each.
fn numbers_out(out: &mut [u8], block: &[u8], p: Cursor, w: usize, l: usize, n: usize) -> Moved
    requires { (w ≤ 16) × (l < 1024) × ValueThere (numbers_dec w n 0 l) (λ ns. 2 * length ns) block.now p.at (length out.old) }
    ensures { ValueOut (numbers_dec w n 0 l) (joined two) block.now p.at result.next.at out.old out.new result.written }
{
    let mut next = p;
    let mut number = l;
    let mut written: usize = 0;
    for _ in 0..n {
        let d = next.sure(block, w);
        number -= d.value;
        written += put_two(&mut out[written..], number);
        next = d.next;
    }
    Moved { next, written }
}

// The 05 field of line l.
fn list_out(out: &mut [u8], block: &[u8], p: Cursor, w: usize, l: usize) -> Moved
    requires { (w ≤ 16) × (l < 1024) × ValueThere (neighbours w l).dec list_size block.now p.at (length out.old) }
    ensures { ValueOut (neighbours w l).dec list_bytes block.now p.at result.next.at out.old out.new result.written }
{
    let count = p.sure(block, w);
    let at = put_three(out, 5, 2 * count.value);
    let list = numbers_out(&mut out[at..], block, count.next, w, l, count.value);
    Moved {
        next: list.next,
        written: at + list.written,
    }
}

// The 05 fields of all lines.
fn lists_out(out: &mut [u8], block: &[u8], p: Cursor, w: usize, lines: usize) -> usize
    requires { (w ≤ 16) × (lines ≤ 1024) × ValueThere (along_dec (neighbours w) up lines 0) (total list_size) block.now p.at (length out.old) }
    ensures { (q : ℕ) × ValueOut (along_dec (neighbours w) up lines 0) (joined list_bytes) block.now p.at q out.old out.new result }
{
    let mut next = p;
    let mut at: usize = 0;
    for l in 0..lines {
        let list = list_out(&mut out[at..], block, next, w, l);
        at += list.written;
        next = list.next;
    }
    at
}

// The 04 and the 05 fields of the index block of a view with `lines` lines.
pub fn index_out(out: &mut [u8], block: &[u8], lines: usize) -> usize
    requires { IndexToRead lines block.now (length out.old) }
    ensures { IndexOut lines block.now out.old out.new result }
{
    if block.is_empty() {
        return 0;
    }
    let w = Cursor::start().sure(block, 8);
    let mut at = put_three(out, 4, 1);
    at += copy(&mut out[at..], &block[0..1]);
    at += lists_out(&mut out[at..], block, w.next, w.value, lines);
    at
}
