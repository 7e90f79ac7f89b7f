// The view that a call names, by finger position and view number, in any bytes: the record is judged, then the view is found. Every call
// on a view begins here.
#![tactic(auto)]

ghost use Rattle.find_view.specs.Found.{FindsView};

use find_parts::view::{Blocks, blocks_at, view_named};
use format::{Scale, ViewName};
use judge::judge;
use outcome::{Refusal, Refused};

// The header's scale, and where the view's blocks stand.
#[derive(Clone, Copy)]
pub struct FoundView {
    pub scale: Scale,
    pub blocks: Blocks,
}

// Refusals 1 to 13.
pub fn find_view(bytes: &[u8], view: ViewName) -> Result<FoundView, Refused>
    ensures { FindsView bytes.now view result }
{
    let record = judge(bytes)?;
    let start = view_named(bytes, view).ok_or(Refusal::NoView)?;
    Ok(FoundView {
        scale: record.header.scale,
        blocks: blocks_at(bytes, start + 8),
    })
}
