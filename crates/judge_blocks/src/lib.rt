// Judges of a view's blocks: the neighbour index, the extended data. A judge says how many bytes its block takes in the sheet, or why
// and where it refuses; a place is in bits.
#![tactic(auto)]

mod block; // a block behind its length
pub mod index; // the neighbour index
pub mod segments; // the extended data

// What is right up to a byte: that byte, and the bytes in the sheet.
#[derive(Clone, Copy)]
pub struct Reached {
    pub next: usize,
    pub size: usize,
}
