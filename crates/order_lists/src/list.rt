// One list after an order: measured, for the index's width and size, or put at a width.
ghost use Rattle.orders.specs.Listed.{removal_lines};
ghost use Rattle.order_removal.specs.Rank.{Rising};
ghost use Rattle.order_lists.specs.List.{Fares, ListThere, Numbered, PutThere, ListPut};

use order_removal::rank_of;
use order_walk::merge::{Merge, step_on};
use put_bits::{put_bits, put_into};

// A list of the old index under the order: all of it, merged with the words about its line (`from`), and the line whose list it is, by
// its old number (`line`) and by its new one (`own`).
#[derive(Clone, Copy)]
pub struct OldList {
    pub from: Merge,
    pub line: usize,
    pub own: usize,
}

// How many neighbours the new list has, and its largest difference.
#[derive(Clone, Copy)]
pub struct Numbers {
    pub count: usize,
    pub most: usize,
}

// The new number of line `line`, if it stays: `stays` says whether the words let it, and the removal may name it.
fn fate_of(removal: &[u8], stays: bool, line: usize) -> Option<usize>
    requires { Rising removal.now }
    ensures { Fares (removal_lines removal.now) stays line result }
{
    if !stays {
        return None;
    }
    match rank_of(removal, line) {
        Ok(_) => None,
        Err(before) => Some(line - before),
    }
}

// What the list `list` of the index block `block` becomes, measured.
pub fn list_numbers(block: &[u8], list: OldList, words: &[u8], removal: &[u8]) -> Numbers
    requires { ListThere block.now list words.now removal.now }
    ensures { Numbered block.now list words.now removal.now result }
{
    let mut k = list.from;
    let mut before = list.own;
    let mut count = 0;
    let mut most: usize = 0;
    while 0 < k.walk.left + k.bound {
        let step = step_on(block, words, list.line, k);
        k = step.next;
        let Some(line) = fate_of(removal, step.stays, step.line) else {
            continue;
        };
        most = most.max(before - line);
        before = line;
        count += 1;
    }
    Numbers { count, most }
}

// The same put at place `at` of `out`, with numbers of `width` bits; the answer is the place behind it. The count stands first and is
// known last.
pub fn list_put(
    out: &mut [u8],
    at: usize,
    block: &[u8],
    list: OldList,
    words: &[u8],
    removal: &[u8],
    width: usize,
) -> usize
    requires { PutThere block.now list words.now removal.now width out.old at }
    ensures { ListPut block.now list words.now removal.now width out.old at out.new result }
{
    let mut p = put_bits(out, at, 0, width);
    let mut k = list.from;
    let mut before = list.own;
    let mut count = 0;
    while 0 < k.walk.left + k.bound {
        let step = step_on(block, words, list.line, k);
        k = step.next;
        let Some(line) = fate_of(removal, step.stays, step.line) else {
            continue;
        };
        p = put_bits(out, p, before - line, width);
        before = line;
        count += 1;
    }
    put_into(out, at, count, width);
    p
}
