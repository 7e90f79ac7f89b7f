// The fields of a view: 02, its header; then those of its lines, its index and its segments. The judge has accepted the view, so
// that each of its blocks is where the lengths say.
ghost use Rattle.std.specs.Prelude.{length};
ghost use Rattle.read_views.specs.ViewOuts.{BlocksToRead, BlocksOut, ViewToRead, ViewWritten};

use find_parts::view::blocks_at;
use format::Widths;
use put_bytes::{copy, put_three};
use read_blocks::index::index_out;
use read_blocks::line::lines_out;
use read_blocks::segments::segments_out;

// The byte behind a view, and the bytes written for it.
#[derive(Clone, Copy)]
pub struct ViewOut {
    pub next: usize,
    pub written: usize,
}

// The fields of a view's blocks; the length of the first is at byte b.
fn blocks_out(out: &mut [u8], bytes: &[u8], b: usize, w: Widths) -> ViewOut
    requires { BlocksToRead w bytes.now b (length out.old) }
    ensures { BlocksOut w bytes.now b out.old out.new result }
{
    let blocks = blocks_at(bytes, b);
    let skeleton = blocks.skeleton.of(bytes);
    let index = blocks.index.of(bytes);
    let extended = blocks.extended.of(bytes);
    let lines = lines_out(out, skeleton, w);
    let mut at = lines.written;
    at += index_out(&mut out[at..], index, lines.count);
    at += segments_out(&mut out[at..], extended);
    ViewOut {
        next: blocks.extended.to,
        written: at,
    }
}

// The fields of the view at byte a.
pub fn view_out(out: &mut [u8], bytes: &[u8], a: usize, w: Widths) -> ViewOut
    requires { ViewToRead w bytes.now a (length out.old) }
    ensures { ViewWritten w bytes.now a out.old out.new result }
{
    let mut at = put_three(out, 2, 8);
    let b = a + 8;
    at += copy(&mut out[at..], &bytes[a..b]);
    let blocks = blocks_out(&mut out[at..], bytes, b, w);
    at += blocks.written;
    ViewOut {
        next: blocks.next,
        written: at,
    }
}
