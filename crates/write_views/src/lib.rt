// A sheet's record, written after the sheet has been judged: block by block, each in the part of the lent buffer that starts where
// the block before ended.
#![tactic(auto)]

pub mod record; // the record: its header, then its views
mod view; // a view: its header and its blocks, each behind its length
