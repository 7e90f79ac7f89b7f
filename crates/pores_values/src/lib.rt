// The numbers of a payload of sweat pores that is known to be right, 32 bits each as bytes: the resolution, e, and of each line how many
// distances it has, and these.
#![tactic(auto)]

ghost use Rattle.pores_values.specs.Put.{with_count, LineRoom, LineLaid, LinesRoom, LinesLaid, NumbersRoom, NumbersLaid};

use bits::{Cursor, pow2};
use put_bytes::put_four;

// How many bytes were laid for a line, and the place behind it.
#[derive(Clone, Copy)]
pub struct LinePut {
    pub length: usize,
    pub next: usize,
}

// The distances of the line at place `at`, with elements of e bits. All ones pass without a pore, so they add to the distance under way;
// any other element ends it.
fn distances_put(out: &mut [u8], payload: &[u8], at: usize, e: usize) -> LinePut
    requires { LineRoom 0 payload.now at e out.old }
    ensures { LineLaid (λ ds. ds) payload.now at e out.old out.new result }
{
    let end = 8 * payload.len();
    let ones = pow2(e) - 1;
    let mut p = at + e;
    let mut laid: usize = 0;
    let mut passed: usize = 0;
    // Element by element, e bits each, up to a zero one: no index is counted.
    while e <= end - p {
        let element = Cursor { at: p }.sure(payload, e);
        if element.value == 0 {
            return LinePut {
                length: laid,
                next: p,
            };
        }
        p += e;
        if element.value == ones {
            passed += ones - 1;
            continue;
        }
        laid += put_four(&mut out[laid..], passed + element.value);
        passed = 0;
    }
    LinePut {
        length: laid,
        next: p,
    }
}

// The same with their number in front, which is known only behind them and laid last.
fn line_put(out: &mut [u8], payload: &[u8], at: usize, e: usize) -> LinePut
    requires { LineRoom 1 payload.now at e out.old }
    ensures { LineLaid with_count payload.now at e out.old out.new result }
{
    let distances = distances_put(&mut out[4..], payload, at, e);
    let first = put_four(out, distances.length / 4);
    LinePut {
        length: first + distances.length,
        next: distances.next,
    }
}

// The numbers of all lines; the answer is how many bytes these are.
fn lines_put(out: &mut [u8], payload: &[u8], lines: usize, e: usize) -> usize
    requires { LinesRoom lines payload.now e out.old }
    ensures { LinesLaid lines payload.now e out.old out.new result }
{
    let mut laid: usize = 0;
    let mut place: usize = 24;
    for _ in 0..lines {
        let line = line_put(&mut out[laid..], payload, place, e);
        laid += line.length;
        place = line.next;
    }
    laid
}

// The answer is how many numbers there are.
pub fn put_numbers(out: &mut [u8], payload: &[u8], lines: usize, e: usize) -> usize
    requires { NumbersRoom lines payload.now e out.old }
    ensures { NumbersLaid lines payload.now out.old out.new result }
{
    let resolution = Cursor { at: 0 }.sure(payload, 16);
    let first = put_four(out, resolution.value);
    let start = first + put_four(&mut out[first..], e);
    (start + lines_put(&mut out[start..], payload, lines, e)) / 4
}
