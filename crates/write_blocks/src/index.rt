// The index block, from the sheet's 04 and 05 fields: its width, then each line's count of neighbours and their differences, in bits.
ghost use Rattle.write_blocks.specs.Lists.{ListToWrite, ListWritten, ListsToWrite, ListsWritten, IndexToWrite, IndexWritten};

use crate::Done;
use bits::{two_at, wide};
use put_bits::put_bits;

// Line l's neighbours, whose numbers are `value`, as differences of w bits.
fn list_put(out: &mut [u8], at: usize, value: &[u8], w: usize, l: usize) -> usize
    requires { ListToWrite w l value.now out.old at }
    ensures { ListWritten w l value.now out.old at out.new result }
{
    let count = value.len() / 2;
    let mut p = put_bits(out, at, count, w);
    let mut before = l;
    for i in 0..count {
        let number = two_at(value, 2 * i);
        p = put_bits(out, p, before - number, w);
        before = number;
    }
    p
}

// The lists of `lines` lines, whose 05 fields start at byte a of the sheet.
fn lists_put(out: &mut [u8], at: usize, sheet: &[u8], a: usize, w: usize, lines: usize) -> Done
    requires { ListsToWrite w lines sheet.now a out.old at }
    ensures { ListsWritten w lines sheet.now a out.old at out.new result }
{
    let mut p = at;
    let mut next = a;
    for l in 0..lines {
        let from = next + 3;
        let to = from + two_at(sheet, next + 1);
        p = list_put(out, p, &sheet[from..to], w, l);
        next = to;
    }
    Done {
        next,
        bytes: (p + 7) / 8,
    }
}

// The index block of a view with `lines` lines: none, or that whose 04 is at byte a of the sheet.
pub fn index_out(out: &mut [u8], sheet: &[u8], a: usize, lines: usize) -> Done
    requires { IndexToWrite lines sheet.now a out.old }
    ensures { IndexWritten lines sheet.now a out.old out.new result }
{
    if sheet.len() <= a {
        return Done { next: a, bytes: 0 };
    }
    if wide(sheet[a]) != 4 {
        return Done { next: a, bytes: 0 };
    }
    let w = wide(sheet[a + 3]);
    let at = put_bits(out, 0, w, 8);
    lists_put(out, at, sheet, a + 4, w, lines)
}
