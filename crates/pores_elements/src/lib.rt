// The elements of a line's pores, and what stands before a mark: definitions, and their codecs with the laws. No code.
#![tactic(auto)]
