// Writers of bits, high bit first, at the start of a lent buffer, one number behind the other. The last byte begun is filled up
// with zero bits, and what lies behind it stays. Where a number is known only later, zeros keep its bits free.
#![tactic(auto)]

ghost use Rattle.std.specs.Prelude.{◌≡◌, ◌+◌, ◌-◌, ◌*◌, ◌/◌, ◌%◌, ◌^◌, ◌≤◌, ◌<◌, length, get_or, set};
ghost use Rattle.put_bits.specs.Put.{CanPut, PutMore, PutInto};

use bits::wide;

// Three bytes as one number: a byte up to its last `free` bits, then the number of `width` bits, then zeros.
fn window(byte: usize, free: usize, value: usize, width: usize) -> usize
    requires { (byte < 256) × (1 ≤ free) × (free ≤ 8) × (value < 2 ^ width) × (width ≤ 16) }
    ensures { result ≡ byte / 2 ^ free * 2 ^ (free + 16) + value * 2 ^ (free + 16 - width) }
{
    let kept = byte >> free << free;
    kept * 65536 + (value << (free + 16 - width))
}

// The number of `width` bits, put at place `at`; the answer is the place behind it. It reaches into three bytes at most.
pub fn put_bits(out: &mut [u8], at: usize, value: usize, width: usize) -> usize
    requires { CanPut out.old at value width }
    ensures { PutMore out.old at value width out.new result }
{
    if width == 0 {
        return at;
    }
    let i = at / 8;
    let free = 8 - at % 8;
    let word = window(wide(out[i]), free, value, width);
    out[i] = (word / 65536 % 256) as u8;
    if width <= free {
        return at + width;
    }
    out[i + 1] = (word / 256 % 256) as u8;
    if width <= free + 8 {
        return at + width;
    }
    out[i + 2] = (word % 256) as u8;
    at + width
}

// A number added to the byte at place i.
fn add_at(out: &mut [u8], i: usize, n: usize)
    requires { (i < length out.old) × (n < 256) }
    ensures { out.new ≡ set out.old i ((get_or out.old i 0 + n) % 256) }
{
    out[i] = out[i].wrapping_add(n as u8);
}

// The number of `width` bits, put into the zeros that keep its bits free at place `at`.
pub fn put_into(out: &mut [u8], at: usize, value: usize, width: usize)
    requires { CanPut out.old at value width }
    ensures { PutInto out.old at value width out.new }
{
    if width == 0 {
        return;
    }
    let i = at / 8;
    let end = at % 8 + width;
    let word = window(0, 8 - at % 8, value, width);
    add_at(out, i, word / 65536 % 256);
    if end <= 8 {
        return;
    }
    add_at(out, i + 1, word / 256 % 256);
    if end <= 16 {
        return;
    }
    add_at(out, i + 2, word % 256);
}
