// Orders on a record: remove lines, join a pair, part a pair. What they do, when they are refused, and what a sequence of them
// leaves is in specs/; the laws are in proofs/.
#![tactic(auto)]
