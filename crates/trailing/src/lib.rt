// The trail of a line of a record. The line is found first, and its elements are counted; where there is room for them, they are
// drawn, as 16-bit numbers or as bytes.
#![tactic(auto)]

ghost use Rattle.std.specs.Prelude.{◌≤◌};
ghost use Rattle.outcome.specs.Outcome.{Answers, AnswersInBytes};
ghost use Rattle.outcome.specs.Why.{answer_of};
ghost use Rattle.trail.specs.Trail.{trailing};
ghost use Rattle.find_parts.specs.Finds.{LineThere};
ghost use Rattle.trailing.specs.Trace.{WalkFound, LineFound};

use bits::Cursor;
use find_parts::line::pass_lines;
use find_view::find_view;
use format::{Scale, ViewName};
use outcome::{Answer, Refusal, Refused};
use trail_steps::{CodeWalk, Pen, count_drawn, first_heading, trail_bytes, trail_numbers};

// A line that is asked for: the walk along its codes, and how many elements they draw.
#[derive(Clone, Copy)]
pub struct FoundLine<'a> {
    pub walk: CodeWalk<'a>,
    pub drawn: usize,
}

// The walk along the line at place p of the block.
fn walk_at<'a>(block: &'a [u8], p: usize, scale: Scale) -> CodeWalk<'a>
    requires { LineThere scale.widths block.now p × (1 ≤ scale.half) × (scale.half ≤ 255) }
    ensures { WalkFound scale block.now p result }
{
    let half = scale.half;
    let w = scale.widths;
    let direction = Cursor { at: p + 2 }.sure(block, w.b);
    let count = Cursor {
        at: p + 2 + w.b + 2 * w.c,
    }
    .sure(block, 8);
    CodeWalk {
        block,
        codes: count.next,
        left: count.value,
        k: w.k,
        half,
        pen: Pen::start(first_heading(direction.value, w.b, half)),
    }
}

// The line of any bytes. Lines are passed up to it; where fewer than eight bits are left, there is none.
fn find<'a>(bytes: &'a [u8], view: ViewName, line: usize) -> Result<FoundLine<'a>, Refused>
    ensures { LineFound (trailing view line bytes.now) result }
{
    let found = find_view(bytes, view)?;
    let block = found.blocks.skeleton.of(bytes);
    let passed = pass_lines(block, found.scale.widths, line);
    if 8 * block.len() - passed.next < 8 {
        return Err(Refusal::BadLines.into());
    }
    let walk = walk_at(block, passed.next, found.scale);
    Ok(FoundLine {
        walk,
        drawn: count_drawn(walk),
    })
}

// How many elements of the line were written.
fn trailed(bytes: &[u8], view: ViewName, line: usize, out: &mut [u16]) -> Result<usize, Refused>
    ensures { Answers (trailing view line bytes.now) out.old out.new (answer_of result) }
{
    let found = find(bytes, view, line)?;
    if out.len() < found.drawn {
        return Err(Refusal::NoRoom.into());
    }
    Ok(trail_numbers(out, found.walk))
}

// The same as bytes. A trait of both forms, with its writer, its room and the laws of these, would be longer than the two functions.
fn trailed_as_bytes(
    bytes: &[u8],
    view: ViewName,
    line: usize,
    out: &mut [u8],
) -> Result<usize, Refused>
    ensures { AnswersInBytes (trailing view line bytes.now) out.old out.new (answer_of result) }
{
    let found = find(bytes, view, line)?;
    if out.len() / 2 < found.drawn {
        return Err(Refusal::NoRoom.into());
    }
    Ok(trail_bytes(out, found.walk))
}

// The trail of a line, as 16-bit numbers.
pub fn trail(bytes: &[u8], view: ViewName, line: usize, out: &mut [u16]) -> Answer
    ensures { Answers (trailing view line bytes.now) out.old out.new result }
{
    Answer::of(trailed(bytes, view, line, out))
}

// The same, as bytes: two for each number, high byte first. A byte over stays.
pub fn trail_as_bytes(bytes: &[u8], view: ViewName, line: usize, out: &mut [u8]) -> Answer
    ensures { AnswersInBytes (trailing view line bytes.now) out.old out.new result }
{
    Answer::of(trailed_as_bytes(bytes, view, line, out))
}
