// A stored payload of sweat pores, judged: its first three bytes, then line by line, then what is left. Reading it and thinning it by a
// removal start here.
#![tactic(auto)]

ghost use Rattle.pores_judge.specs.Judged.{PayloadThere, PayloadJudged};

use bits::Cursor;
use bits::ranged::ranged_at;
use pores_lines::line_at;

// e: bits of an element; numbers: how many reading the payload gives.
#[derive(Clone, Copy)]
pub struct JudgedPayload {
    pub e: usize,
    pub numbers: usize,
}

// A payload in a view with so many lines, if it is right for it. Zero elements behind the last line are padding.
pub fn judge_payload(payload: &[u8], lines: usize) -> Option<JudgedPayload>
    requires { PayloadThere payload.now }
    ensures { PayloadJudged lines payload.now result }
{
    if payload.len() < 3 {
        return None;
    }
    let Ok(element) = ranged_at(Cursor { at: 16 }, payload, 2, 8) else {
        return None;
    };
    let e = element.value;
    let mut place = element.next.at;
    let mut numbers: usize = 2;
    for _ in 0..lines {
        let line = line_at(payload, place, e)?;
        place = line.next;
        numbers += 1 + line.count;
    }
    let left = 8 * payload.len() - place;
    if 8 <= left {
        return None;
    }
    let padding = Cursor { at: place }.sure(payload, left);
    if padding.value != 0 {
        return None;
    }
    Some(JudgedPayload { e, numbers })
}
