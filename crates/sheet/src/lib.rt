// The sheet: a record's fields under tags. Its grammar and its values are in specs/; the laws of reading and writing are in
// proofs/.
#![tactic(auto)]
