// The walk along the codes of a line: the first heading, and an iterator of the elements that the codes draw, which two writers lay,
// as 16-bit numbers and as bytes. They run on a line that is known to be accepted.
#![tactic(auto)]

ghost use Rattle.std.specs.Prelude.{◌≡◌, ◌-◌, ◌*◌, ◌^◌, ◌≤◌, ◌<◌, length};
ghost use Rattle.std.specs.Iterator.{YieldsFirst, item_count};
ghost use Rattle.put_bytes.specs.Laid.{Laid};
ghost use Rattle.put_bytes.specs.HighFirst.{two, joined};
ghost use Rattle.trail.specs.Trail.{first_heading, turned};
ghost use Rattle.trail_steps.specs.Walk.{start_at, StepDraws};
ghost use Rattle.trail_steps.specs.Elements.{elements, CodesThere, Ready, CanDraw};

use bits::{Cursor, pow2};
use put_bytes::put_two;

// Where the walk stands: its heading, and whether the level is high.
#[derive(Clone, Copy)]
pub struct Pen {
    pub heading: usize,
    pub high: bool,
}

impl Pen {
    // Each line starts at level 0.
    pub fn start(heading: usize) -> Self
        ensures { result ≡ start_at heading }
    {
        Self {
            heading,
            high: false,
        }
    }

    // One code of k bits: the element that it draws, if it turns no level.
    pub fn step(&mut self, code: usize, k: usize, half: usize) -> Option<usize>
        requires { (1 ≤ k) × (k ≤ 8) × (code < 2 ^ k) × (1 ≤ half) × (half ≤ 255) × (self.old.heading < 2 * half) }
        ensures { StepDraws half k self.old code self.new result }
    {
        if code == level_turn(k) {
            self.high = !self.high;
            return None;
        }
        self.heading = heading_after(self.heading, code, k, half);
        Some(2 * self.heading + usize::from(self.high))
    }
}

// The start direction of b bits as a heading, the nearest of a full turn, halves upwards; half: directions in a half turn.
pub fn first_heading(direction: usize, b: usize, half: usize) -> usize
    requires { (b ≤ 8) × (direction < 2 ^ b) × (1 ≤ half) × (half ≤ 255) }
    ensures { result ≡ first_heading half b direction }
{
    let turn = 2 * half;
    let directions = pow2(b);
    (2 * (direction * turn) + directions) / (2 * directions) % turn
}

// The code of k bits with only its top bit set.
fn level_turn(k: usize) -> usize
    requires { (1 ≤ k) × (k ≤ 8) }
    ensures { (result ≡ 2 ^ (k - 1)) × (result ≤ 128) }
{
    pow2(k - 1)
}

// A code of k bits added to the heading; half: directions in a half turn.
fn heading_after(heading: usize, code: usize, k: usize, half: usize) -> usize
    requires { (1 ≤ k) × (k ≤ 8) × (code < 2 ^ k) × (1 ≤ half) × (half ≤ 255) × (heading < 2 * half) }
    ensures { result ≡ turned half k heading code }
{
    let top = level_turn(k);
    let sum = heading + code;
    if code < top {
        return sum % (2 * half);
    }
    (sum + (2 * half - 1) * (2 * top)) % (2 * half)
}

// The walk along the codes of a line: the block that they stand in, where the next one starts, how many are left, bits of each,
// directions in a half turn, and the pen. Its items are the elements that the codes draw.
#[derive(Clone, Copy)]
pub struct CodeWalk<'a> {
    pub block: &'a [u8],
    pub codes: Cursor,
    pub left: usize,
    pub k: usize,
    pub half: usize,
    pub pen: Pen,
}

impl<'a> Iterator for CodeWalk<'a> {
    type Item = usize;

    ghost can_next = { Ready };

    ghost next_gives = { YieldsFirst elements };

    ghost remaining = { item_count elements };

    fn next(&mut self) -> Option<usize> {
        while 0 < self.left {
            let code = self.codes.sure(self.block, self.k);
            self.codes = code.next;
            self.left -= 1;
            if let Some(element) = self.pen.step(code.value, self.k, self.half) {
                return Some(element);
            }
        }
        None
    }
}

// How many elements the walk draws: a level turn draws none. The iterator's own `count` would find every heading, by a division for each
// code.
pub fn count_drawn(walk: CodeWalk) -> usize
    requires { CodesThere walk }
    ensures { result ≡ length (elements walk.entry) }
{
    let top = level_turn(walk.k);
    let mut codes = walk.codes;
    let mut count: usize = 0;
    for _ in 0..walk.left {
        let code = codes.sure(walk.block, walk.k);
        if code.value != top {
            count += 1;
        }
        codes = code.next;
    }
    count
}

// The elements of the walk as 16-bit numbers; the answer is how many.
pub fn trail_numbers(out: &mut [u16], walk: CodeWalk) -> usize
    requires { CanDraw 1 walk (length out.old) }
    ensures { Laid (elements walk.entry) out.old out.new result }
{
    let mut at: usize = 0;
    for element in walk {
        out[at] = element as u16;
        at += 1;
    }
    at
}

// The same as bytes, high byte first; the answer is how many elements.
pub fn trail_bytes(out: &mut [u8], walk: CodeWalk) -> usize
    requires { CanDraw 2 walk (length out.old) }
    ensures { Laid (joined two (elements walk.entry)) out.old out.new (2 * result) }
{
    let mut at: usize = 0;
    for element in walk {
        at += put_two(&mut out[at..], element);
    }
    at / 2
}
