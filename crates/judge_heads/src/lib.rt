// Readers of the record's header and of a view's header: their values, or the refusal's number and its place, in bits. The sheet's
// fields 01 and 02 hold the same values and are judged by the same code.
#![tactic(auto)]

pub mod header; // the record's header
pub mod view; // a view's header
