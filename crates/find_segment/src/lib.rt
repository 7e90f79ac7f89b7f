// The segment that a call names, in any bytes: its view is found, then the segments before it are passed. Every call on a segment
// begins here.
#![tactic(auto)]

ghost use Rattle.std.specs.Prelude.{◌+◌, ◌≤◌};
ghost use Rattle.find_segment.specs.Found.{FindsSegment, SpotThere, LinesOf};

use bits::two_at;
use find_parts::line::pass_lines;
use find_parts::segments::pass_segments;
use find_view::find_view;
use format::{Image, Part, ViewHeader, ViewName, Widths};
use outcome::{Refusal, Refused};

// Of its view the size of the image, the widths of lines' fields, the skeleton block and the extended block; its type, and its payload.
#[derive(Clone, Copy)]
pub struct Spot {
    pub image: Image,
    pub widths: Widths,
    pub skeleton: Part,
    pub extended: Part,
    pub kind: usize,
    pub payload: Part,
}

// Where the segment stands. Refusals 1 to 13, 23.
pub fn find_segment(bytes: &[u8], view: ViewName, place: usize) -> Result<Spot, Refused>
    ensures { FindsSegment bytes.now view place result }
{
    let found = find_view(bytes, view)?;
    let skeleton = found.blocks.skeleton;
    let lines = skeleton.from;
    let extended = found.blocks.extended;
    let first = extended.from;
    let end = extended.to;
    let block = &bytes[first..end];
    let passed = pass_segments(block, place);
    if block.len() <= passed.next {
        return Err(Refusal::NoSegment.into());
    }
    let start = first + passed.next;
    Ok(Spot {
        image: Image {
            width: two_at(bytes, lines - 6),
            height: two_at(bytes, lines - 4),
        },
        widths: found.scale.widths,
        skeleton,
        extended,
        kind: two_at(bytes, start),
        payload: Part {
            from: start + 4,
            to: start + two_at(bytes, start + 2),
        },
    })
}

// How many lines its view has.
pub fn lines_of(bytes: &[u8], spot: Spot) -> usize
    requires { SpotThere bytes.now spot }
    ensures { LinesOf bytes.now spot result }
{
    let widths = spot.widths;
    let from = spot.skeleton.from;
    let to = spot.skeleton.to;
    let passed = pass_lines(&bytes[from..to], widths, ViewHeader::MOST_LINES);
    passed.count
}
