// The trail of a line. What it is, and when it is refused, is in specs/.
#![tactic(auto)]
