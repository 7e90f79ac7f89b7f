// The index block after an order: its width and size first, and then the block, put at that width.
ghost use Rattle.order_lists.specs.Index.{IndexThere, IndexSized, IndexPutThere, IndexPut};

use crate::lists::{lists_numbers, lists_put};
use crate::width::least_width;
use bits::Cursor;
use put_bits::put_bits;

// The new index block: how many bits its numbers have, and how many bytes it has.
#[derive(Clone, Copy)]
pub struct Size {
    pub width: usize,
    pub bytes: usize,
}

// The size of the new index block. The old one is `block`, of a view with `lines` lines.
pub fn index_size(block: &[u8], lines: usize, words: &[u8], removal: &[u8]) -> Size
    requires { IndexThere block.now lines words.now removal.now }
    ensures { IndexSized block.now lines words.now removal.now result }
{
    let w = Cursor::start().sure(block, 8);
    let totals = lists_numbers(block, w.value, lines, words, removal);
    let width = least_width(totals.most);
    Size {
        width,
        bytes: (8 + (totals.lists + totals.entries) * width + 7) / 8,
    }
}

// The new index block, with numbers of `width` bits, put at the start of `out`; the answer is how many bytes it has.
pub fn index_put(
    out: &mut [u8],
    block: &[u8],
    lines: usize,
    words: &[u8],
    removal: &[u8],
    width: usize,
) -> usize
    requires { IndexPutThere block.now lines words.now removal.now width out.old }
    ensures { IndexPut block.now lines words.now removal.now out.old out.new result }
{
    let w = Cursor::start().sure(block, 8);
    put_bits(out, 0, width, 8);
    let end = lists_put(out, block, w.value, lines, words, removal, width);
    (end + 7) / 8
}
