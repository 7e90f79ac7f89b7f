// The record that an order leaves, put together from the old one: all bytes are the old ones, but for the record length and the
// blocks of the view that the order names, with their lengths. The order is the bytes of a removal and those of a
// list of words, of which one is empty; it has passed its tests.
#![tactic(auto)]

pub mod measure; // how long the new blocks and the new record are
pub mod put; // the new record
