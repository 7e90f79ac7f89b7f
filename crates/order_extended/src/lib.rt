// The extended block that a removal leaves, measured or put: segments of pores with those of the lines that stay, all others as they
// are. The block's segments of pores are known to be right.
#![tactic(auto)]

ghost use Rattle.order_extended.specs.Segment.{SegmentToKeep, SegmentSized, SegmentPutThere, SegmentPut};
ghost use Rattle.order_extended.specs.Extended.{ExtendedToKeep, ExtendedSized, ExtendedPutThere, ExtendedPut};

use bits::two_at;
use format::SegmentType;
use order_pores::{pores_put, pores_size};
use order_segments::Segments;
use put_bytes::{copy, put_two};

// How many bytes the segment then has, in a view with `lines` lines before the removal.
fn segment_size(segment: &[u8], lines: usize, removal: &[u8]) -> usize
    requires { SegmentToKeep segment.now lines removal.now }
    ensures { SegmentSized segment.now lines removal.now result }
{
    if two_at(segment, 0) != SegmentType::PORES {
        return segment.len();
    }
    4 + pores_size(&segment[4..], lines, removal)
}

// The segment, put at the start of `out`; its length is put when its payload is. The answer is how many bytes it has.
fn segment_put(out: &mut [u8], segment: &[u8], lines: usize, removal: &[u8]) -> usize
    requires { SegmentPutThere segment.now lines removal.now out.old }
    ensures { SegmentPut segment.now lines removal.now out.old out.new result }
{
    if two_at(segment, 0) != SegmentType::PORES {
        return copy(out, segment);
    }
    let at = copy(out, &segment[0..2]);
    let size = pores_put(&mut out[4..], &segment[4..], lines, removal);
    put_two(&mut out[at..], 4 + size);
    4 + size
}

// How many bytes the new block has. The old one is `block`.
pub fn extended_size(block: &[u8], lines: usize, removal: &[u8]) -> usize
    requires { ExtendedToKeep block.now lines removal.now }
    ensures { ExtendedSized block.now lines removal.now result }
{
    let mut size = 0;
    for segment in Segments(block) {
        size += segment_size(segment, lines, removal);
    }
    size
}

// The new block, put at the start of `out`; the answer is how many bytes it has.
pub fn extended_put(out: &mut [u8], block: &[u8], lines: usize, removal: &[u8]) -> usize
    requires { ExtendedPutThere block.now lines removal.now out.old }
    ensures { ExtendedPut block.now lines removal.now out.old out.new result }
{
    let mut at = 0;
    for segment in Segments(block) {
        at += segment_put(&mut out[at..], segment, lines, removal);
    }
    at
}
