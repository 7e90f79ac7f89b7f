// The segments of a view, gone over one by one, and whether they stand in the way of a removal. Those of local quality are carried along
// as they are, and the pores of the lines that stay; any other type is refused, and then pores that are not those of the view's lines.
#![tactic(auto)]

ghost use Rattle.std.specs.Iterator.{YieldsFirstRef, item_count};
ghost use Rattle.bits.specs.OfBlock.{BlockThere};
ghost use Rattle.format.specs.Segments.{segments};
ghost use Rattle.order_segments.specs.Walk.{Whole, segments_in};
ghost use Rattle.order_segments.specs.Kinds.{KindsSeen, PoresThere, PoresSeen};

use bits::two_at;
use format::SegmentType;
use pores_judge::judge_payload;

// The segments of an extended block, each with its bytes; those that are left fill what is left of the block.
#[derive(Clone, Copy)]
pub struct Segments<'a>(pub &'a [u8]);

impl<'a> Iterator for Segments<'a> {
    type Item = &'a [u8];

    ghost can_next = { λ s. Whole s.0.now };

    ghost next_gives = { YieldsFirstRef (λ s. segments_in s.0.now) };

    ghost remaining = { item_count (λ s. segments_in s.0.now) };

    fn next(&mut self) -> Option<&'a [u8]> {
        if self.0.is_empty() {
            return None;
        }
        let (segment, behind) = self.0.split_at(two_at(self.0, 2));
        self.0 = behind;
        Some(segment)
    }
}

// Whether every segment of the extended block is of one of the two types, which follow each other; an empty block has none.
pub fn all_carried(block: &[u8]) -> bool
    requires { BlockThere segments block.now }
    ensures { KindsSeen block.now result }
{
    for segment in Segments(block) {
        let kind = two_at(segment, 0);
        if kind < SegmentType::LOCAL_QUALITY {
            return false;
        }
        if SegmentType::PORES < kind {
            return false;
        }
    }
    true
}

// Whether every segment of pores says pores of so many lines.
pub fn pores_right(block: &[u8], lines: usize) -> bool
    requires { PoresThere block.now lines }
    ensures { PoresSeen block.now lines result }
{
    for segment in Segments(block) {
        if two_at(segment, 0) != SegmentType::PORES {
            continue;
        }
        if judge_payload(&segment[4..], lines).is_none() {
            return false;
        }
    }
    true
}
