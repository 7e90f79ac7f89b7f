// Orders on a record: remove lines, join a pair, part a pair, and a list of pairs. The record is judged, the view is found and its line
// count compared; then come the order's own tests, the size of the new record, and the room that is lent. Only then is anything
// written. One order about a pair is a list of one.
#![tactic(auto)]

ghost use Rattle.std.specs.Prelude.{true, false};
ghost use Rattle.outcome.specs.Outcome.{Answers};
ghost use Rattle.outcome.specs.Why.{answer_of};
ghost use Rattle.orders.specs.Order.{order};
ghost use Rattle.orders.specs.Called.{removal_order, pair_order};
ghost use Rattle.orders.specs.Pairs.{pairs_call, pairs};
ghost use Rattle.ordering.specs.Orders.{ViewIndexed, PairsThere, PairsDone};

use find_parts::site::Site;
use format::ViewName;
use order_carry::carry_out;
use order_pairs::judging::judge_list;
use order_removal::lines_right;
use order_segments::{all_carried, pores_right};
use order_view::named_view;
use order_words::{one_word, shape_right};
use outcome::{Answer, Refusal, Refused};

// Lines removed: 15, 16, 26 are its own.
fn removed(
    bytes: &[u8],
    view: ViewName,
    count: usize,
    removal: &[u8],
    out: &mut [u8],
) -> Result<usize, Refused>
    ensures { Answers (order (removal_order view count removal.now) bytes.now) out.old out.new (answer_of result) }
{
    let site = named_view(bytes, view, count)?;
    if !lines_right(removal, count) {
        return Err(Refusal::BadLines.into());
    }
    let from = site.extended.from;
    let to = site.extended.to;
    let block = &bytes[from..to];
    if !all_carried(block) {
        return Err(Refusal::Extended.into());
    }
    if !pores_right(block, count) {
        return Err(Refusal::BadPores.into());
    }
    carry_out(bytes, site, &bytes[0..0], removal, 0, out)
}

// Lines removed: the numbers of `removal`, two bytes each, high byte first.
pub fn remove(bytes: &[u8], view: ViewName, count: usize, removal: &[u8], out: &mut [u8]) -> Answer
    ensures { Answers (order (removal_order view count removal.now) bytes.now) out.old out.new result }
{
    Answer::of(removed(bytes, view, count, removal, out))
}

// The view that an order about pairs names, which has an index: 17.
fn indexed_view(bytes: &[u8], view: ViewName, count: usize) -> Result<Site, Refused>
    ensures { ViewIndexed bytes.now view count result }
{
    let site = named_view(bytes, view, count)?;
    if site.index.to <= site.index.from {
        return Err(Refusal::NoIndex.into());
    }
    Ok(site)
}

// The orders of the list, which has its shape, on the view that is found, which has an index: 15, 18, 19, 20.
fn pairs_at(bytes: &[u8], site: Site, list: &[u8], out: &mut [u8]) -> Result<usize, Refused>
    requires { PairsThere bytes.now site list.now }
    ensures { PairsDone bytes.now site list.now out.old out.new (answer_of result) }
{
    let last = judge_list(bytes, site, list, out.len())?;
    carry_out(bytes, site, list, &bytes[0..0], last, out)
}

// Lines a and b joined, or parted.
fn paired(
    bytes: &[u8],
    view: ViewName,
    count: usize,
    a: usize,
    b: usize,
    joins: bool,
    out: &mut [u8],
) -> Result<usize, Refused>
    ensures { Answers (order (pair_order view count a b joins) bytes.now) out.old out.new (answer_of result) }
{
    let site = indexed_view(bytes, view, count)?;
    if count <= a || count <= b {
        return Err(Refusal::BadLines.into());
    }
    let word = one_word(a, b, joins);
    pairs_at(bytes, site, &word, out)
}

// Lines a and b made neighbours.
pub fn join(
    bytes: &[u8],
    view: ViewName,
    count: usize,
    a: usize,
    b: usize,
    out: &mut [u8],
) -> Answer
    ensures { Answers (order (pair_order view count a b true) bytes.now) out.old out.new result }
{
    Answer::of(paired(bytes, view, count, a, b, true, out))
}

// Lines a and b made neighbours no more.
pub fn part(
    bytes: &[u8],
    view: ViewName,
    count: usize,
    a: usize,
    b: usize,
    out: &mut [u8],
) -> Answer
    ensures { Answers (order (pair_order view count a b false) bytes.now) out.old out.new result }
{
    Answer::of(paired(bytes, view, count, a, b, false, out))
}

// The orders of the list: 25 is its own.
fn listed(
    bytes: &[u8],
    view: ViewName,
    count: usize,
    list: &[u8],
    out: &mut [u8],
) -> Result<usize, Refused>
    ensures { Answers (pairs (pairs_call view count list.now out.old) bytes.now) out.old out.new (answer_of result) }
{
    let site = indexed_view(bytes, view, count)?;
    if !shape_right(list) {
        return Err(Refusal::BadPairs.into());
    }
    pairs_at(bytes, site, list, out)
}

// The orders of the list, one after another: three numbers of two bytes each, high byte first: 0 join or 1 part, and two lines.
pub fn pairs(bytes: &[u8], view: ViewName, count: usize, list: &[u8], out: &mut [u8]) -> Answer
    ensures { Answers (pairs (pairs_call view count list.now out.old) bytes.now) out.old out.new result }
{
    Answer::of(listed(bytes, view, count, list, out))
}
