// The pores of a view in parts, and the lines of their payload: definitions, and that parts and payload go over into each other. No code.
#![tactic(auto)]
