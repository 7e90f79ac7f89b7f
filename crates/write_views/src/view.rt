// A view of the record, from its fields in the sheet: the header's bytes as they stand, then the three blocks, each behind its length.
// A block is written first, and its length in front of it when it is known. What a block asks and leaves is a record of its own: one
// function over closures would have to carry all three.
ghost use Rattle.write_views.specs.Views.{SkeletonThere, SkeletonOut, IndexSizedThere, IndexBehindLength, SegmentsSizedThere, SegmentsSized, ViewToWrite, ViewPut};

use format::Widths;
use put_bytes::{copy, put_two};
use write_blocks::Done;
use write_blocks::index::index_out;
use write_blocks::line::{Lines, lines_out};
use write_blocks::segments::segments_out;

// The skeleton block behind its length.
fn skeleton(out: &mut [u8], sheet: &[u8], a: usize, w: Widths) -> Lines
    requires { SkeletonThere w sheet.now a out.old }
    ensures { SkeletonOut w sheet.now a out.old out.new result }
{
    let lines = lines_out(&mut out[2..], sheet, a, w);
    let at = put_two(out, lines.bytes);
    Lines {
        next: lines.next,
        count: lines.count,
        bytes: at + lines.bytes,
    }
}

// The index block behind its length.
fn index(out: &mut [u8], sheet: &[u8], a: usize, lines: usize) -> Done
    requires { IndexSizedThere lines sheet.now a out.old }
    ensures { IndexBehindLength lines sheet.now a out.old out.new result }
{
    let block = index_out(&mut out[2..], sheet, a, lines);
    let at = put_two(out, block.bytes);
    Done {
        next: block.next,
        bytes: at + block.bytes,
    }
}

// The extended block behind its length.
fn extended(out: &mut [u8], sheet: &[u8], a: usize) -> Done
    requires { SegmentsSizedThere sheet.now a out.old }
    ensures { SegmentsSized sheet.now a out.old out.new result }
{
    let block = segments_out(&mut out[2..], sheet, a);
    let at = put_two(out, block.bytes);
    Done {
        next: block.next,
        bytes: at + block.bytes,
    }
}

// The view whose 02 is at byte a of the sheet.
pub fn view_out(out: &mut [u8], sheet: &[u8], a: usize, w: Widths) -> Done
    requires { ViewToWrite w sheet.now a out.old }
    ensures { ViewPut w sheet.now a out.old out.new result }
{
    let from = a + 3;
    let to = a + 11;
    let mut at = copy(out, &sheet[from..to]);
    let lines = skeleton(&mut out[at..], sheet, to, w);
    at += lines.bytes;
    let lists = index(&mut out[at..], sheet, lines.next, lines.count);
    at += lists.bytes;
    let segments = extended(&mut out[at..], sheet, lists.next);
    at += segments.bytes;
    let next = segments.next;
    Done { next, bytes: at }
}
