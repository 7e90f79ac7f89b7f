// Neighbours as differences: definitions, and the laws by which falling lists and differences go over into each other. No code.
#![tactic(auto)]
