// Segments of an extended block: each is passed by its length.
ghost use Rattle.bits.specs.OfBlock.{BlockThere};
ghost use Rattle.format.specs.Segments.{segments};
ghost use Rattle.find_parts.specs.Finds.{SegmentsPassed};

use crate::Passed;
use bits::Cursor;

// The first `most` segments of the extended block passed, or all where there are fewer.
pub fn pass_segments(block: &[u8], most: usize) -> Passed
    requires { BlockThere segments block.now }
    ensures { SegmentsPassed block.now most result }
{
    let mut next: usize = 0;
    for count in 0..most {
        if block.len() <= next {
            return Passed { count, next };
        }
        next += Cursor { at: 8 * next + 16 }.sure(block, 16).value;
    }
    Passed { count: most, next }
}
