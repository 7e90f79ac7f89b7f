// A direction code as a byte of the sheet: definitions, and the laws by which codes and bytes go over into each other. No code.
#![tactic(auto)]
