// The new record, written to the lent buffer: each block is put together in the part that starts where the block before ended.
ghost use Rattle.order_record.specs.Blocks.{SkeletonRoom, SkeletonLaid, IndexRoom, IndexLaid, ExtendedRoom, ExtendedLaid};
ghost use Rattle.order_record.specs.Rebuilt.{RebuildRoom, Rebuilt};

use crate::measure::Sizes;
use find_parts::site::Site;
use format::Widths;
use order_extended::extended_put;
use order_lines::lines_put;
use order_lists::index::index_put;
use put_bytes::{copy, put_two};
use put_record::head_put;

// The length `bytes`, and behind it the new skeleton block. The old one is `block`, of `lines` lines, and a pair order copies it.
fn skeleton_put(
    out: &mut [u8],
    block: &[u8],
    w: Widths,
    lines: usize,
    removal: &[u8],
    bytes: usize,
) -> usize
    requires { SkeletonRoom w block.now lines removal.now bytes out.old }
    ensures { SkeletonLaid w block.now removal.now out.old out.new result }
{
    let at = put_two(out, bytes);
    if removal.len() == 0 {
        at + copy(&mut out[at..], block)
    } else {
        at + lines_put(&mut out[at..], block, w, lines, removal)
    }
}

// The length `bytes`, and behind it the new index block, with numbers of `width` bits. The old one is `block`, of a view with `lines`
// lines.
fn lists_put(
    out: &mut [u8],
    block: &[u8],
    lines: usize,
    words: &[u8],
    removal: &[u8],
    width: usize,
    bytes: usize,
) -> usize
    requires { IndexRoom block.now lines words.now removal.now width bytes out.old }
    ensures { IndexLaid block.now lines words.now removal.now out.old out.new result }
{
    let at = put_two(out, bytes);
    if block.len() == 0 {
        return at;
    }
    at + index_put(&mut out[at..], block, lines, words, removal, width)
}

// The length `bytes`, and behind it the new extended block. The old one is `block`, of a view with `lines` lines, and a pair order
// copies it.
fn segments_put(out: &mut [u8], block: &[u8], lines: usize, removal: &[u8], bytes: usize) -> usize
    requires { ExtendedRoom block.now lines removal.now bytes out.old }
    ensures { ExtendedLaid block.now lines removal.now out.old out.new result }
{
    let at = put_two(out, bytes);
    if removal.len() != 0 {
        at + extended_put(&mut out[at..], block, lines, removal)
    } else {
        at + copy(&mut out[at..], block)
    }
}

// The new record, whose sizes are `sizes`; the answer is how many bytes it has. The old one is `old`, and `site` says where the view
// stands that the order names.
pub fn put(
    out: &mut [u8],
    old: &[u8],
    site: Site,
    words: &[u8],
    removal: &[u8],
    sizes: Sizes,
) -> usize
    requires { RebuildRoom old.now site words.now removal.now sizes out.old }
    ensures { Rebuilt old.now site words.now removal.now sizes out.old out.new result }
{
    let lines = site.lines;
    let from = site.skeleton.from;
    let to = site.skeleton.to;
    let mut at = head_put(out, old, from - 2, sizes.bytes);
    at += skeleton_put(
        &mut out[at..],
        &old[from..to],
        site.widths,
        lines,
        removal,
        sizes.skeleton,
    );
    let index = site.index.from;
    let end = site.index.to;
    at += lists_put(
        &mut out[at..],
        &old[index..end],
        lines,
        words,
        removal,
        sizes.width,
        sizes.index,
    );
    let first = site.extended.from;
    let last = site.extended.to;
    at += segments_put(
        &mut out[at..],
        &old[first..last],
        lines,
        removal,
        sizes.extended,
    );
    at += copy(&mut out[at..], &old[last..]);
    at
}
