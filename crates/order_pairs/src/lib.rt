// The orders of a list of pairs, judged one after another on the old record: whether two lines are neighbours when an order's turn
// comes is what the words before it say, else the old index; and the sizes in between are measured only where they might pass a limit.
// No record is made before all orders but the last have been found right.
#![tactic(auto)]

pub mod judging; // all orders, one after another
pub mod sizes; // the size of the record after some of them
