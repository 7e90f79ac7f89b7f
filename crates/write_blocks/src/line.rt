// The skeleton block, from the sheet's 03 fields: each line's ends, its count of codes and its codes, in bits.
ghost use Rattle.write_blocks.specs.Puts.{EndThere, EndPut, CodesToWrite, CodesPut, LineToWrite, LinePut, LinesToWrite, LinesWritten};

use bits::{pow2, two_at, wide};
use format::Widths;
use put_bits::put_bits;

// The byte of the sheet behind the lines' fields, how many lines there are, and the bytes of their block.
#[derive(Clone, Copy)]
pub struct Lines {
    pub next: usize,
    pub count: usize,
    pub bytes: usize,
}

// The end whose six bytes are at byte a of `value`.
fn end_put(out: &mut [u8], at: usize, value: &[u8], a: usize, w: Widths) -> usize
    requires { EndThere w value.now a out.old at }
    ensures { EndPut w value.now a out.old at out.new result }
{
    let mut p = put_bits(out, at, wide(value[a]), 2);
    p = put_bits(out, p, wide(value[a + 1]), w.b);
    p = put_bits(out, p, two_at(value, a + 2), w.c);
    put_bits(out, p, two_at(value, a + 4), w.c)
}

// Codes of k bits, whose bytes are `value`.
fn codes_put(out: &mut [u8], at: usize, value: &[u8], k: usize) -> usize
    requires { CodesToWrite k value.now out.old at }
    ensures { CodesPut k value.now out.old at out.new result }
{
    let top = pow2(k);
    let mut p = at;
    for code in value {
        p = put_bits(out, p, wide(*code) % top, k);
    }
    p
}

// The line whose field has the value.
fn line_put(out: &mut [u8], at: usize, value: &[u8], w: Widths) -> usize
    requires { LineToWrite w value.now out.old at }
    ensures { LinePut w value.now out.old at out.new result }
{
    let end = value.len();
    let mut p = end_put(out, at, value, 0, w);
    p = put_bits(out, p, end - 12, 8);
    p = codes_put(out, p, &value[12..end], w.k);
    end_put(out, p, value, 6, w)
}

// The lines whose fields start at byte a of the sheet.
pub fn lines_out(out: &mut [u8], sheet: &[u8], a: usize, w: Widths) -> Lines
    requires { LinesToWrite w sheet.now a out.old }
    ensures { LinesWritten w sheet.now a out.old out.new result }
{
    let mut next = a;
    let mut at: usize = 0;
    let mut count: usize = 0;
    while next < sheet.len() && wide(sheet[next]) == 3 {
        let from = next + 3;
        let to = from + two_at(sheet, next + 1);
        at = line_put(out, at, &sheet[from..to], w);
        next = to;
        count += 1;
    }
    Lines {
        next,
        count,
        bytes: (at + 7) / 8,
    }
}
