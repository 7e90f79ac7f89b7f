// A line of a payload of pores, gone over element by element: how many distances it has, and where it ends. Whoever judges a payload,
// reads it or thins it goes from line to line here.
#![tactic(auto)]

ghost use Rattle.pores_lines.specs.Found.{ElementsThere, LineFound};

use bits::{Cursor, pow2};

// How many distances a line has, and the place behind it.
#[derive(Clone, Copy)]
pub struct PoreLine {
    pub count: usize,
    pub next: usize,
}

// The line that starts at place `at` of the payload, with elements of e bits, if one stands there.
pub fn line_at(payload: &[u8], at: usize, e: usize) -> Option<PoreLine>
    requires { ElementsThere payload.now at e }
    ensures { LineFound payload.now at e result }
{
    let end = 8 * payload.len();
    if end - at < e {
        return None;
    }
    let mark = Cursor { at }.sure(payload, e);
    if mark.value != 0 {
        return None;
    }
    let ones = pow2(e) - 1;
    let mut p = at + e;
    let mut count: usize = 0;
    let mut underway = false;
    // Element by element, e bits each, up to a zero one: no index is counted.
    while e <= end - p {
        let element = Cursor { at: p }.sure(payload, e);
        if element.value == 0 {
            if underway {
                return None;
            }
            return Some(PoreLine { count, next: p });
        }
        p += e;
        if element.value == ones {
            underway = true;
            continue;
        }
        underway = false;
        count += 1;
    }
    if underway {
        return None;
    }
    Some(PoreLine { count, next: p })
}
