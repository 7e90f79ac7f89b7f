// The list of a removal, as bytes: whether it names lines of a view, and what becomes of a line. The list rises, so that a line is
// looked up by halving.
#![tactic(auto)]

ghost use Rattle.std.specs.Prelude.{◌≡◌};
ghost use Rattle.orders.specs.Listed.{removal_lines};
ghost use Rattle.orders.specs.Order.{lines_ok};
ghost use Rattle.order_removal.specs.Rank.{Rising, Ranked};

use bits::two_at;

// Whether the list `removal` names lines of a view that has `count`: at least one, rising, each below `count`.
pub fn lines_right(removal: &[u8], count: usize) -> bool
    ensures { result ≡ lines_ok count (removal_lines removal.now) }
{
    let size = removal.len();
    if size == 0 || size % 2 != 0 {
        return false;
    }
    let mut least = 0;
    for i in 0..size / 2 {
        let line = two_at(removal, 2 * i);
        if line < least || count <= line {
            return false;
        }
        least = line + 1;
    }
    true
}

// Where line n is in the list `removal`, which rises; or, where it stays, how many lines of the list are before it.
pub fn rank_of(removal: &[u8], n: usize) -> Result<usize, usize>
    requires { Rising removal.now }
    ensures { Ranked (removal_lines removal.now) n result }
{
    let (lines, _) = removal.as_chunks::<2>();
    lines.binary_search_by_key(&n, |line| two_at(line, 0))
}
