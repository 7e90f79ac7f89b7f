// The fields of a sheet that come of a view's blocks, written at the start of a lent buffer: the judge has accepted the record, and
// their length is known.
#![tactic(auto)]

pub mod index; // 04 and 05: the neighbour index
pub mod line; // 03: lines
pub mod segments; // 06: segments

use bits::Cursor;

// The cursor behind what was read, and the bytes written for it.
#[derive(Clone, Copy)]
pub struct Moved {
    pub next: Cursor,
    pub written: usize,
}
