// A record's sheet, written after the judge has accepted the record and its length is known: field by field, each writer in the rest
// of the lent buffer from where the one before ended.
#![tactic(auto)]

pub mod record; // the sheet: 01, then the views
mod view; // 02: a view, with all of its fields
