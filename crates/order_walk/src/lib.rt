// The lists of neighbours in an accepted record's index, walked along: as they stand, and merged with the words of a list of pairs.
#![tactic(auto)]

pub mod merge; // one list as the words about its line leave it
pub mod walk; // one list as it stands in the block
