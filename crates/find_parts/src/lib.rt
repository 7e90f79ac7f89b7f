// Where the views, blocks, lines and segments of an accepted record stand. The judge has accepted the record, so that every length
// it states is right, and code goes by these lengths.
#![tactic(auto)]

pub mod line; // lines of a skeleton block
pub mod segments; // segments of an extended block
pub mod site; // a view whose lines are counted
pub mod view; // views, and their blocks

// How many parts were passed, and where the next one starts: a line at a bit of its block, a segment at a byte.
#[derive(Clone, Copy)]
pub struct Passed {
    pub count: usize,
    pub next: usize,
}
