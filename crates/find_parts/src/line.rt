// Lines of a skeleton block: each is passed by its count of codes.
ghost use Rattle.find_parts.specs.Finds.{LineThere, LineEnd, LinesThere, LinesPassed};

use crate::Passed;
use bits::Cursor;
use format::Widths;

// The place behind the line that starts at place p.
pub fn line_end(block: &[u8], p: usize, w: Widths) -> usize
    requires { LineThere w block.now p }
    ensures { LineEnd w block.now p result }
{
    let end = 2 + w.b + 2 * w.c;
    let count = Cursor { at: p + end }.sure(block, 8);
    p + end + 8 + count.value * w.k + end
}

// The first `most` lines of the skeleton block passed, or all where there are fewer.
pub fn pass_lines(block: &[u8], w: Widths, most: usize) -> Passed
    requires { LinesThere w block.now }
    ensures { LinesPassed w block.now most result }
{
    let end = 8 * block.len();
    let mut next: usize = 0;
    for count in 0..most {
        if end - next < 8 {
            return Passed { count, next };
        }
        next = line_end(block, next, w);
    }
    Passed { count: most, next }
}
