// The numbers of the listing for one view of an accepted record. The judge has accepted the view, so that its parts are counted by the
// lengths and counts that it states.
#![tactic(auto)]

ghost use Rattle.bits.specs.OfBlock.{BlockThere};
ghost use Rattle.format.specs.Index.{index_block};
ghost use Rattle.list_numbers.specs.Counts.{PairsCounted, ListedThere, ListedAt};

use bits::Cursor;
use find_parts::line::pass_lines;
use find_parts::segments::pass_segments;
use find_parts::view::blocks_at;
use format::{ViewHeader, Widths};

// What is listed of a view, and the byte behind it. A view without an index has no pairs.
#[derive(Clone, Copy)]
pub struct Listed {
    pub position: usize,
    pub number: usize,
    pub lines: usize,
    pub pairs: Option<usize>,
    pub segments: usize,
    pub next: usize,
}

// The pairs in the index block of a view with `lines` lines, if it is not empty: each line's count is read, and its differences are
// passed.
fn count_pairs(block: &[u8], lines: usize) -> Option<usize>
    requires { BlockThere (index_block lines) block.now }
    ensures { PairsCounted lines block.now result }
{
    if block.is_empty() {
        return None;
    }
    let width = Cursor::start().sure(block, 8);
    let w = width.value;
    let mut at: usize = 8;
    let mut pairs: usize = 0;
    for _ in 0..lines {
        let count = Cursor { at }.sure(block, w);
        pairs += count.value;
        at += w + count.value * w;
    }
    Some(pairs)
}

// The view that starts at byte a.
pub fn listed_at(bytes: &[u8], a: usize, w: Widths) -> Listed
    requires { ListedThere w bytes.now a }
    ensures { ListedAt w bytes.now a result }
{
    let number = Cursor { at: 8 * a }.sure(bytes, 8);
    let position = Cursor { at: 8 * a + 8 }.sure(bytes, 8);
    let blocks = blocks_at(bytes, a + 8);
    let skeleton = blocks.skeleton.of(bytes);
    let index = blocks.index.of(bytes);
    let extended = blocks.extended.of(bytes);
    let lines = pass_lines(skeleton, w, ViewHeader::MOST_LINES);
    Listed {
        position: position.value,
        number: number.value,
        lines: lines.count,
        pairs: count_pairs(index, lines.count),
        segments: pass_segments(extended, extended.len()).count,
        next: blocks.extended.to,
    }
}
