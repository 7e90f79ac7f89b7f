// The values of one view: its header, its lines, its index, its segments. Each part stands where the one before has ended; the first
// that is wrong is the answer.
ghost use Rattle.format.specs.Record.{Narrow};
ghost use Rattle.check_blocks.specs.Run.{SomeFields};
ghost use Rattle.check_values.specs.View.{ViewToCheck, ViewIs};

use check_blocks::index::index_values;
use check_blocks::run::{line_values, segment_sizes};
use check_value::header::head_value;
use format::Widths;

// The byte behind a view's fields, the position in its header, and the bytes that it takes.
#[derive(Clone, Copy)]
pub struct Sized {
    pub end: usize,
    pub position: usize,
    pub bytes: usize,
}

// The view whose 02 starts at byte p; seen counts the earlier views of each position. Two bytes of length stand before each block.
pub fn view_values(sheet: &[u8], p: usize, w: Widths, seen: &[u8; 11]) -> Option<Sized>
    requires { SomeFields (ViewToCheck sheet.now p) × Narrow w }
    ensures { ViewIs w seen.now sheet.now p result }
{
    let from = p + 3;
    let to = p + 11;
    let head = head_value(&sheet[from..to], seen)?;
    let lines = line_values(sheet, to, w)?;
    let index = index_values(sheet, lines.next)?;
    let segments = segment_sizes(sheet, index.next);
    Some(Sized {
        end: segments.next,
        position: head.position,
        bytes: 10 + (lines.size + 7) / 8 + 2 + index.size + 2 + segments.size,
    })
}
