// Sweat pores: the payload of their segments, and their two calls. What they are is in specs/; the laws are in proofs/.
#![tactic(auto)]
