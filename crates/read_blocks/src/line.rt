// The 03 fields: a line's ends, then a byte for each code. The judge has accepted the lines, so that each read is sure. A line's
// finish is read before its codes, since the field has both ends first.
ghost use Rattle.std.specs.Prelude.{◌≡◌, List, map, ℕ, ◌+◌, ◌*◌, ◌^◌, ◌≤◌, ◌<◌, length};
ghost use Rattle.bits.specs.Codec.{times_dec};
ghost use Rattle.bits.specs.CodecLaws.{field};
ghost use Rattle.bits.specs.Reads.{found, Reads};
ghost use Rattle.outcome.specs.Refusals.{bad_line};
ghost use Rattle.put_bytes.specs.Laid.{Laid};
ghost use Rattle.format.specs.Line.{end, end_bits};
ghost use Rattle.sheet_codes.specs.Code.{sign_extended};
ghost use Rattle.sheet_bytes.specs.Bytes.{end_bytes};
ghost use Rattle.read_blocks.specs.LineParts.{SmallEnd, PartsThere, PartsOut};
ghost use Rattle.read_blocks.specs.LineOuts.{LineToRead, LineOut, LinesToRead, LinesOut};

use crate::Moved;
use bits::{Cursor, pow2};
use format::{End, Widths};
use put_bytes::{put_three, put_two};

// An end, and the cursor behind it.
#[derive(Clone, Copy)]
struct SureEnd {
    value: End,
    next: Cursor,
}

// What the 03 field of a line is made of; the codes are still to be read.
#[derive(Clone, Copy)]
struct LineParts {
    start: End,
    finish: End,
    codes: Cursor,
    count: usize,
}

// How many lines a block has, and the bytes written for them.
#[derive(Clone, Copy)]
pub struct Lines {
    pub count: usize,
    pub written: usize,
}

// The byte of a code of k bits.
fn code_byte(n: usize, k: usize) -> u8
    requires { (n < 2 ^ k) × (1 ≤ k) × (k ≤ 8) }
    ensures { result ≡ sign_extended k n }
{
    if n < pow2(k - 1) {
        n as u8
    } else {
        (n + (256 - pow2(k))) as u8
    }
}

// The six bytes of an end.
fn end_out(out: &mut [u8], e: End) -> usize
    requires { (6 ≤ length out.old) × SmallEnd e }
    ensures { Laid (end_bytes e) out.old out.new result }
{
    out[0] = e.kind as u8;
    out[1] = e.direction as u8;
    let at = 2 + put_two(&mut out[2..], e.x);
    at + put_two(&mut out[at..], e.y)
}

// The end at the cursor, where its bits are known to be there.
fn end_sure(p: Cursor, block: &[u8], w: Widths) -> SureEnd
    requires { (length block.now ≤ 65535) × (w.b ≤ 8) × (w.c ≤ 16) × (p.at + end_bits w ≤ 8 * length block.now) }
    ensures { Reads (end w).dec block.now p.at (found result.value result.next.at) }
{
    let kind = p.sure(block, 2);
    let direction = kind.next.sure(block, w.b);
    let x = direction.next.sure(block, w.c);
    let y = x.next.sure(block, w.c);
    let value = End {
        kind: kind.value,
        direction: direction.value,
        x: x.value,
        y: y.value,
    };
    let next = y.next;
    SureEnd { value, next }
}

// The bytes of n codes of k bits from the cursor on.
fn codes_out(out: &mut [u8], block: &[u8], p: Cursor, k: usize, n: usize) -> usize
    requires { (length block.now ≤ 65535) × (1 ≤ k) × (k ≤ 8) × (p.at + n * k ≤ 8 * length block.now) × (n ≤ length out.old) }
    ensures { (result ≡ n) × ((cs : List ℕ) (q : ℕ) → Reads (times_dec (field bad_line k) n) block.now p.at (found cs q)
        → Laid (map (sign_extended k) cs) out.old out.new result) }
{
    let mut codes = p;
    for byte in &mut out[..n] {
        let code = codes.sure(block, k);
        *byte = code_byte(code.value, k);
        codes = code.next;
    }
    n
}

// The 03 field of a line.
fn parts_out(out: &mut [u8], block: &[u8], l: LineParts, k: usize) -> usize
    requires { PartsThere k block.now l (length out.old) }
    ensures { PartsOut k block.now l out.old out.new result }
{
    let mut at = put_three(out, 3, 12 + l.count);
    at += end_out(&mut out[at..], l.start);
    at += end_out(&mut out[at..], l.finish);
    at += codes_out(&mut out[at..], block, l.codes, k, l.count);
    at
}

// The 03 field of the line at the cursor.
pub fn line_out(out: &mut [u8], block: &[u8], p: Cursor, w: Widths) -> Moved
    requires { LineToRead w block.now p.at (length out.old) }
    ensures { LineOut w block.now p.at out.old out.new result }
{
    let first = end_sure(p, block, w);
    let field = first.next.sure(block, 8);
    let codes = field.next;
    let count = field.value;
    let at = codes.at + count * w.k;
    let last = end_sure(Cursor { at }, block, w);
    let start = first.value;
    let finish = last.value;
    let next = last.next;
    let parts = LineParts {
        start,
        finish,
        codes,
        count,
    };
    let written = parts_out(out, block, parts, w.k);
    Moved { next, written }
}

// The 03 fields of the lines of a skeleton block.
pub fn lines_out(out: &mut [u8], block: &[u8], w: Widths) -> Lines
    requires { LinesToRead w block.now (length out.old) }
    ensures { LinesOut w block.now out.old out.new result }
{
    let end = 8 * block.len();
    let mut p = Cursor::start();
    let mut n: usize = 0;
    let mut at: usize = 0;
    while 8 <= end - p.at {
        let l = line_out(&mut out[at..], block, p, w);
        at += l.written;
        n += 1;
        p = l.next;
    }
    Lines {
        count: n,
        written: at,
    }
}
