// Local quality as a host has it: which values are right, and the numbers that stand in the payload for them. No code.
#![tactic(auto)]
