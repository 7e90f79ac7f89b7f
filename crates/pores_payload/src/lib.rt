// The payload of pores, put together from the numbers that a host lends for them: the resolution, e, and the lines' elements behind them.
#![tactic(auto)]

ghost use Rattle.pores_payload.specs.Payload.{DistanceRoom, DistancePut, LineRoom, LinePut, PayloadRoom, PayloadLaid};

use bits::{four_at, pow2};
use put_bits::put_bits;

// How far lines are put: byte of the numbers, bit of the payload.
#[derive(Clone, Copy)]
struct Reached {
    byte: usize,
    bit: usize,
}

// A distance at bit `at`: elements of all ones, then another. The answer is the bit behind it.
fn put_distance(out: &mut [u8], at: usize, distance: usize, e: usize) -> usize
    requires { DistanceRoom out.old at distance e }
    ensures { DistancePut distance e out.old at out.new result }
{
    let most = pow2(e) - 2;
    let ones = (distance - 1) / most;
    let mut next = at;
    for _ in 0..ones {
        next = put_bits(out, next, most + 1, e);
    }
    put_bits(out, next, (distance - 1) % most + 1, e)
}

// A line: a zero element, then its distances.
fn put_line(out: &mut [u8], values: &[u8], from: Reached, e: usize) -> Reached
    requires { LineRoom values.now e out.old from }
    ensures { LinePut values.now e out.old from out.new result }
{
    let count = four_at(values, from.byte);
    let mut byte = from.byte + 4;
    let mut bit = put_bits(out, from.bit, 0, e);
    for _ in 0..count {
        bit = put_distance(out, bit, four_at(values, byte), e);
        byte += 4;
    }
    Reached { byte, bit }
}

// The payload of a view that has `lines` lines; the answer is how many bytes it has.
pub fn put_payload(out: &mut [u8], values: &[u8], lines: usize, e: usize) -> usize
    requires { PayloadRoom lines values.now e out.old }
    ensures { PayloadLaid lines values.now out.old out.new result }
{
    let resolution = four_at(values, 0);
    let mut bit = put_bits(out, 0, resolution, 16);
    bit = put_bits(out, bit, e, 8);
    let mut reached = Reached { byte: 8, bit };
    for _ in 0..lines {
        reached = put_line(out, values, reached, e);
    }
    (reached.bit + 7) / 8
}
