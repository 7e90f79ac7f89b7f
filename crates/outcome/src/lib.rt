// What a call gives back. The numbers of the refusals, and what an answer means for the lent buffer, are in specs/.
#![tactic(auto)]

ghost use Rattle.std.specs.Prelude.{◌≡◌};
ghost use Rattle.outcome.specs.Why.{answer_of};

pub mod refusal; // why a call refuses, and where

pub use refusal::{Fault, Refusal, Refused};

// number: 0 where accepted, else the refusal's. place: the first bit of what is refused, counted from the record's first; of an order
// that is refused in a list of them, its place there, counted from 0; of a segment that is found, its payload's first bit; else 0.
// length: how many elements were written.
#[repr(C)]
#[derive(Clone, Copy)]
pub struct Answer {
    pub number: u32,
    pub place: u32,
    pub length: usize,
}

// A refusal at a place of the record, or of a list of orders.
pub fn refuse_at(number: u32, place: u32) -> Answer
    ensures { result ≡ record { number = number; place = place; length = 0 } }
{
    Answer {
        number,
        place,
        length: 0,
    }
}

// Accepted, with `length` elements written.
pub fn accept(length: usize) -> Answer
    ensures { result ≡ record { number = 0; place = 0; length = length } }
{
    Answer {
        number: 0,
        place: 0,
        length,
    }
}

impl Answer {
    // What a call answers that has given so many elements, or refuses.
    pub fn of(given: Result<usize, Refused>) -> Answer
        ensures { result ≡ answer_of given }
    {
        match given {
            Ok(length) => accept(length),
            Err(refused) => refuse_at(refused.why.number(), refused.place),
        }
    }
}
