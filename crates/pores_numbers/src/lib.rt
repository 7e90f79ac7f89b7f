// Numbers that a host lends for pores, four bytes each: resolution, e, then per line a count and that many distances. Whether they are
// right for a view, and how many elements they make. A distance or a count can pass four thousand million, so that elements are counted
// up to a bound only.
#![tactic(auto)]

ghost use Rattle.pores_numbers.specs.Judged.{LineThere, LineJudged, LinesThere, LinesJudged, NumbersJudged};

use bits::{four_at, pow2};

// The bits of an element, and how many elements there are.
#[derive(Clone, Copy)]
pub struct JudgedNumbers {
    pub e: usize,
    pub elements: usize,
}

// Where the list goes on behind a line, and how many elements there are up to there.
#[derive(Clone, Copy)]
struct JudgedLine {
    next: usize,
    elements: usize,
}

// Elements are counted up to here. These are more than a record holds, however few bits they have.
const MOST_COUNTED: usize = 262144;

// The line whose count stands at byte `at`, if one does. Its zero element and those of its distances are added to `elements`.
fn judge_line(values: &[u8], at: usize, e: usize, elements: usize) -> Option<JudgedLine>
    requires { LineThere values.now at e elements }
    ensures { LineJudged values.now at e elements result }
{
    if values.len() <= at {
        return None;
    }
    let most = pow2(e) - 2;
    let count = four_at(values, at);
    let mut next = at + 4;
    let mut total = (elements + 1).min(MOST_COUNTED);
    for _ in 0..count {
        if values.len() <= next {
            return None;
        }
        let distance = four_at(values, next);
        if distance == 0 {
            return None;
        }
        total = (total + (distance - 1) / most + 1).min(MOST_COUNTED);
        next += 4;
    }
    Some(JudgedLine {
        next,
        elements: total,
    })
}

// That many lines, from the third number on to the list's end.
fn judge_lines(values: &[u8], lines: usize, e: usize) -> Option<JudgedNumbers>
    requires { LinesThere values.now e }
    ensures { LinesJudged lines values.now e result }
{
    let mut at: usize = 8;
    let mut elements: usize = 0;
    for _ in 0..lines {
        let line = judge_line(values, at, e, elements)?;
        at = line.next;
        elements = line.elements;
    }
    if at < values.len() {
        return None;
    }
    Some(JudgedNumbers { e, elements })
}

// The numbers of a view that has `lines` lines, if they are right for it.
pub fn judge_numbers(values: &[u8], lines: usize) -> Option<JudgedNumbers>
    ensures { NumbersJudged lines values.now result }
{
    if values.len() % 4 != 0 {
        return None;
    }
    if values.len() < 8 {
        return None;
    }
    if 65535 < four_at(values, 0) {
        return None;
    }
    let e = four_at(values, 4);
    if e < 2 {
        return None;
    }
    if 8 < e {
        return None;
    }
    judge_lines(values, lines, e)
}
