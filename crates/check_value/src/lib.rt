// Whether one value of a sheet's field is right, for each kind of field but a line: refusal 22. Each function is lent the value as a
// slice of its own, whose length the grammar has already fixed. A segment's value is right by its length alone, so it has no function.
#![tactic(auto)]

pub mod header; // 01, the header's, and 02, a view header's
pub mod list; // 04, the width of an index, and 05, a line's neighbours
pub mod narrow; // a number that needs few bits
