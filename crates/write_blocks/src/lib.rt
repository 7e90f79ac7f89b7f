// A view's blocks, written from the fields of a sheet that has been judged, each at the start of a lent buffer.
#![tactic(auto)]

pub mod index; // 04 and 05 fields: the index block
pub mod line; // 03 fields: the skeleton block
pub mod segments; // 06 fields: the extended block

// The byte of the sheet behind the fields that were written, and how many bytes were written.
#[derive(Clone, Copy)]
pub struct Done {
    pub next: usize,
    pub bytes: usize,
}
