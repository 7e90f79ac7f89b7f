// Local quality: the payload of its segments, and its two calls. What they are is in specs/; the laws are in proofs/.
#![tactic(auto)]
