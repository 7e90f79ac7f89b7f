// How long the blocks that an order changes become, and the record.
ghost use Rattle.order_record.specs.Blocks.{OldSkeleton, SkeletonMeasured, OldIndex, IndexMeasured, OldExtended, ExtendedMeasured};
ghost use Rattle.order_record.specs.Rebuilt.{Placed, Measured};

use find_parts::site::Site;
use format::Widths;
use order_extended::extended_size;
use order_lines::lines_size;
use order_lists::index::{Size, index_size};

// How many bytes the new skeleton block has, how many bits the numbers of the new index have and how many bytes its block, how many
// bytes the new extended block has, and the new record.
#[derive(Clone, Copy)]
pub struct Sizes {
    pub skeleton: usize,
    pub width: usize,
    pub index: usize,
    pub extended: usize,
    pub bytes: usize,
}

// How many bytes the new skeleton block has. The old one is `block`, of `lines` lines; a pair order removes none.
fn skeleton_size(block: &[u8], w: Widths, lines: usize, removal: &[u8]) -> usize
    requires { OldSkeleton w block.now lines removal.now }
    ensures { SkeletonMeasured w block.now removal.now result }
{
    if removal.len() == 0 {
        return block.len();
    }
    lines_size(block, w, lines, removal)
}

// The size of the new index block. The old one is `block`, of a view with `lines` lines; an empty one is no index, and stays empty.
fn lists_size(block: &[u8], lines: usize, words: &[u8], removal: &[u8]) -> Size
    requires { OldIndex block.now lines words.now removal.now }
    ensures { IndexMeasured block.now lines words.now removal.now result }
{
    if block.len() == 0 {
        return Size { width: 1, bytes: 0 };
    }
    index_size(block, lines, words, removal)
}

// How many bytes the new extended block has. The old one is `block`, of a view with `lines` lines; a pair order changes none.
fn segments_size(block: &[u8], lines: usize, removal: &[u8]) -> usize
    requires { OldExtended block.now lines removal.now }
    ensures { ExtendedMeasured block.now lines removal.now result }
{
    if removal.len() == 0 {
        return block.len();
    }
    extended_size(block, lines, removal)
}

// The sizes of the new record. The old one is `old`, and `site` says where the view stands that the order names.
pub fn measure(old: &[u8], site: Site, words: &[u8], removal: &[u8]) -> Sizes
    requires { Placed old.now site words.now removal.now }
    ensures { Measured old.now site words.now removal.now result }
{
    let from = site.skeleton.from;
    let to = site.skeleton.to;
    let skeleton = skeleton_size(&old[from..to], site.widths, site.lines, removal);
    let index = site.index.from;
    let end = site.index.to;
    let lists = lists_size(&old[index..end], site.lines, words, removal);
    let first = site.extended.from;
    let last = site.extended.to;
    let extended = segments_size(&old[first..last], site.lines, removal);
    Sizes {
        skeleton,
        width: lists.width,
        index: lists.bytes,
        extended,
        bytes: from + skeleton + 2 + lists.bytes + 2 + extended + (old.len() - last),
    }
}
