// The neighbour lists that an order leaves, read from those that stand in an accepted record's index: measured first, for the least
// width and the index's size, and then put. The order is the bytes of a removal and those of a list of words; one of them is empty.
#![tactic(auto)]

pub mod index; // the index block
mod list; // one list, measured or put
pub mod lists; // all lists
pub mod width; // the least width
