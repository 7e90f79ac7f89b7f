// The lists of an index after an order, one behind the other: measured, or put at a width. Line by line the block's list is found, and
// passed where the removal names its line; the words are looked through again only for a line that is the higher one of a word.
ghost use Rattle.order_lists.specs.Lists.{ListsThere, ListsNumbered, ListsPutThere, ListsPut};

use crate::list::{OldList, list_numbers, list_put};
use order_removal::rank_of;
use order_walk::merge::Merge;
use order_walk::walk::list_at;
use order_words::{about_line, next_high};

// The lists after the order: how many they are, how many neighbours they have in all, and the largest count or difference.
#[derive(Clone, Copy)]
pub struct Totals {
    pub lists: usize,
    pub entries: usize,
    pub most: usize,
}

// The lists after the order, measured, from those of `lines` lines in the index block `block`, with numbers of w bits.
pub fn lists_numbers(block: &[u8], w: usize, lines: usize, words: &[u8], removal: &[u8]) -> Totals
    requires { ListsThere w block.now lines words.now removal.now }
    ensures { ListsNumbered w block.now lines words.now removal.now result }
{
    let mut named = next_high(words, 0);
    let mut p = 8;
    let mut lists = 0;
    let mut entries = 0;
    let mut most: usize = 0;
    for l in 0..lines {
        let about = about_line(words, l, named);
        let found = list_at(block, w, p, l);
        let walk = found.walk;
        let bound = about.bound;
        let list = OldList {
            from: Merge { walk, bound },
            line: l,
            own: lists,
        };
        named = about.next;
        p = found.next;
        if rank_of(removal, l).is_ok() {
            continue;
        }
        let numbers = list_numbers(block, list, words, removal);
        entries += numbers.count;
        most = most.max(numbers.count).max(numbers.most);
        lists += 1;
    }
    Totals {
        lists,
        entries,
        most,
    }
}

// The same lists put with numbers of `width` bits, where they stand in an index block: behind the byte of its width. The answer is
// the place behind them.
pub fn lists_put(
    out: &mut [u8],
    block: &[u8],
    w: usize,
    lines: usize,
    words: &[u8],
    removal: &[u8],
    width: usize,
) -> usize
    requires { ListsPutThere w block.now lines words.now removal.now width out.old }
    ensures { ListsPut w block.now lines words.now removal.now width out.old out.new result }
{
    let mut named = next_high(words, 0);
    let mut q = 8;
    let mut p = 8;
    let mut lists = 0;
    for l in 0..lines {
        let about = about_line(words, l, named);
        let found = list_at(block, w, p, l);
        let walk = found.walk;
        let bound = about.bound;
        let list = OldList {
            from: Merge { walk, bound },
            line: l,
            own: lists,
        };
        named = about.next;
        p = found.next;
        if rank_of(removal, l).is_ok() {
            continue;
        }
        q = list_put(out, q, block, list, words, removal, width);
        lists += 1;
    }
    q
}
