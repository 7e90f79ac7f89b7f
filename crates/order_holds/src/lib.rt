// The record that now holds after an order: a part of one of two slices, and for a host that takes numbers alone, which of them and
// how long.
#![tactic(auto)]

ghost use Rattle.std.specs.Prelude.{◌≡◌};
ghost use Rattle.orders.specs.Order.{holds};
ghost use Rattle.order_holds.specs.Held.{held};

// "The second buffer's first bytes if the number is 0 and the length fits it, else the whole old record."
pub fn now_holds<'a>(old: &'a [u8], second: &'a [u8], number: u32, length: usize) -> &'a [u8]
    ensures { result.now ≡ holds old.now second.now number length }
{
    if number != 0 {
        return old;
    }
    if length <= second.len() {
        &second[..length]
    } else {
        old
    }
}

// The C interface: two numbers, where code would answer with the slice. second: 1 where the second buffer's first bytes hold, 0 where
// the whole old record does.
// length: how many bytes that is.
#[repr(C)]
#[derive(Clone, Copy)]
pub struct Held {
    pub second: u32,
    pub length: usize,
}

pub fn which_holds(old: &[u8], second: &[u8], number: u32, length: usize) -> Held
    ensures { result ≡ held old.now second.now number length }
{
    let whole = Held {
        second: 0,
        length: old.len(),
    };
    if number != 0 {
        return whole;
    }
    if length <= second.len() {
        Held { second: 1, length }
    } else {
        whole
    }
}
