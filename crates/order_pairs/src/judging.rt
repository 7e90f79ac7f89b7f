// The orders of a list judged, one after another: 15, 18, 19, 20.
ghost use Rattle.std.specs.Prelude.{◌≡◌, not};
ghost use Rattle.bits.specs.Choice.{pick};
ghost use Rattle.order_carry.specs.Carried.{number_in, RefusedAt};
ghost use Rattle.order_pairs.specs.Judged.{OrderThere, OrderSeen, OrdersThere, Judging};

use crate::sizes::hold_size_after;
use find_parts::site::Site;
use order_near::near_after;
use order_words::pair_at;
use outcome::{Refusal, Refused};

// Join of neighbours, or part of two that are not.
fn already_so(near: bool, joins: bool) -> bool
    ensures { result ≡ pick joins near (not near) }
{
    if joins { near } else { !near }
}

// The order at `place` of the list, after those before it: 15, 18.
fn judge_order(bytes: &[u8], site: Site, list: &[u8], place: u32) -> Result<(), Refused>
    requires { OrderThere bytes.now site list.now place }
    ensures number { OrderSeen bytes.now site list.now place (number_in result) }
    ensures place { RefusedAt place result }
{
    let i = place as usize;
    let pair = pair_at(list, i);
    if site.lines <= pair.high {
        return Err(Refused {
            why: Refusal::BadLines,
            place,
        });
    }
    let from = site.index.from;
    let to = site.index.to;
    let end = 6 * i;
    let near = near_after(&bytes[from..to], &list[0..end], pair.high, pair.low);
    if already_so(near, pair.joins) {
        return Err(Refused {
            why: Refusal::AlreadySo,
            place,
        });
    }
    Ok(())
}

// The orders of the list, which has its shape, on the view at `site`, which has an index; a buffer of `lent` bytes is lent for each. They
// are right but for the size that the last one leaves, and the answer is its place; or the first that is not is refused.
pub fn judge_list(bytes: &[u8], site: Site, list: &[u8], lent: usize) -> Result<u32, Refused>
    requires { OrdersThere bytes.now site list.now }
    ensures { Judging bytes.now site list.now lent result }
{
    let last = (list.len() / 6 - 1) as u32;
    for place in 0..last {
        judge_order(bytes, site, list, place)?;
        let end = 6 * place as usize + 6;
        hold_size_after(bytes, site, &list[0..end], lent, place)?;
    }
    judge_order(bytes, site, list, last)?;
    Ok(last)
}
