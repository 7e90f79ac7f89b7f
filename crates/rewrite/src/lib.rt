// A record with the payload of one segment rewritten. What that is is in specs/; the laws are in proofs/.
#![tactic(auto)]
