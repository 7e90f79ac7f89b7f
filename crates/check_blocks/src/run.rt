// The values of fields that may come several times, one behind the other: lines, neighbour lists, segments. Each function goes over
// them as long as they come, and counts what they take in a record. A function over closures would have to ask what each test asks, and
// bound what each value takes, so that no sum wraps: more than the three loops say.
ghost use Rattle.std.specs.Prelude.{◌≤◌};
ghost use Rattle.format.specs.Record.{Narrow};
ghost use Rattle.check_blocks.specs.Run.{SomeFields, LineFields, LinesAre, ListFields, ListsAre, Segments, SegmentsAre};

use bits::two_at;
use check_line::line_value;
use check_shape::starts;
use check_value::list::list_value;
use format::Widths;

// The byte behind them, and what they take in a record: lines and lists so many bits, segments and a whole index so many bytes.
#[derive(Clone, Copy)]
pub struct Counted {
    pub next: usize,
    pub size: usize,
}

// The 06s from byte p on. A segment's value is right whatever it is; its length of two bytes is added in the record.
pub fn segment_sizes(sheet: &[u8], p: usize) -> Counted
    requires { SomeFields (Segments sheet.now p) }
    ensures { SegmentsAre sheet.now p result }
{
    let mut next = p;
    let mut bytes: usize = 0;
    while starts(sheet, next, 6) {
        let size = two_at(sheet, next + 1);
        bytes += size + 2;
        next = next + 3 + size;
    }
    Counted { next, size: bytes }
}

// The 03s from byte p on, at the widths of the header.
pub fn line_values(sheet: &[u8], p: usize, w: Widths) -> Option<Counted>
    requires { SomeFields (LineFields sheet.now p) × Narrow w }
    ensures { LinesAre w sheet.now p result }
{
    let ends = 2 * (2 + w.b + 2 * w.c);
    let mut next = p;
    let mut bits: usize = 0;
    while starts(sheet, next, 3) {
        let size = two_at(sheet, next + 1);
        let from = next + 3;
        let end = from + size;
        let value = &sheet[from..end];
        if !line_value(value, w) {
            return None;
        }
        bits += ends + 8 + w.k * (size - 12);
        next = end;
    }
    Some(Counted { next, size: bits })
}

// The 05s from byte p on, at the width w of their index; l is the line whose list comes next.
pub fn list_values(sheet: &[u8], p: usize, w: usize) -> Option<Counted>
    requires { SomeFields (ListFields sheet.now p) × (w ≤ 16) }
    ensures { ListsAre w sheet.now p result }
{
    let mut next = p;
    let mut bits: usize = 0;
    let mut l: usize = 0;
    while starts(sheet, next, 5) {
        let size = two_at(sheet, next + 1);
        let from = next + 3;
        let end = from + size;
        let value = &sheet[from..end];
        if !list_value(value, w, l) {
            return None;
        }
        bits += w + w * (size / 2);
        next = end;
        l += 1;
    }
    Some(Counted { next, size: bits })
}
