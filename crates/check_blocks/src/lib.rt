// Whether the values of the fields that a view's blocks are made of are right, and how much the blocks take in the record: refusal 22.
#![tactic(auto)]

pub mod index; // a view's index
pub mod run; // the lines, lists or segments that come one behind the other
