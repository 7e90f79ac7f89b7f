// What the place of a refusal shows. What is said is in specs/; the laws are in proofs/.
#![tactic(auto)]
