// A view whose lines are counted: what an order is about.
ghost use Rattle.find_parts.specs.Site.{SiteThere, SiteFound};

use crate::line::pass_lines;
use crate::view::Blocks;
use format::{Part, ViewHeader, Widths};

// The view's blocks, how many lines it has, and the widths of their fields.
#[derive(Clone, Copy)]
pub struct Site {
    pub skeleton: Part,
    pub index: Part,
    pub extended: Part,
    pub lines: usize,
    pub widths: Widths,
}

// The view whose blocks these are, in the record `bytes`.
pub fn site_at(bytes: &[u8], blocks: Blocks, w: Widths) -> Site
    requires { SiteThere bytes.now blocks w }
    ensures { SiteFound bytes.now blocks w result }
{
    let passed = pass_lines(blocks.skeleton.of(bytes), w, ViewHeader::MOST_LINES);
    Site {
        skeleton: blocks.skeleton,
        index: blocks.index,
        extended: blocks.extended,
        lines: passed.count,
        widths: w,
    }
}
