// One list of neighbours as the words about its line leave it, line by line and falling: the list in the block, merged with the lines
// that a word names.
ghost use Rattle.order_walk.specs.Merge.{WordThere, ByWord, MergeThere, StepsOn};

use crate::walk::{ListWalk, next_line};
use order_words::{low_bound, said_about};

// A list from here on: what is still to come of the list in the block, and one more than the highest line still to come that a word
// names beside the list's own, or 0.
#[derive(Clone, Copy)]
pub struct Merge {
    pub walk: ListWalk,
    pub bound: usize,
}

// A line that is in the block's list or that a word names, whether it stays, and the list behind it.
#[derive(Clone, Copy)]
pub struct Step {
    pub line: usize,
    pub stays: bool,
    pub next: Merge,
}

// The next line of the list of line l at `k`, where it is named by a word and the block's list does not have it.
fn by_word(words: &[u8], l: usize, k: Merge) -> Step
    requires { WordThere l k }
    ensures { ByWord words.now l k result }
{
    let line = k.bound - 1;
    let stays = said_about(words, l, line, false);
    let bound = low_bound(words, l, line);
    let walk = k.walk;
    Step {
        line,
        stays,
        next: Merge { walk, bound },
    }
}

// The next line of the list of line l at `k`, which is not at its end.
pub fn step_on(block: &[u8], words: &[u8], l: usize, k: Merge) -> Step
    requires { MergeThere block.now words.now l k }
    ensures { StepsOn block.now words.now l k result }
{
    let bound = k.bound;
    let old = k.walk;
    if old.left == 0 {
        return by_word(words, l, k);
    }
    let found = next_line(block, old);
    let line = found.line;
    let walk = found.next;
    if bound <= line {
        return Step {
            line,
            stays: true,
            next: Merge { walk, bound },
        };
    }
    if line + 1 < bound {
        return by_word(words, l, k);
    }
    let stays = said_about(words, l, line, true);
    let bound = low_bound(words, l, line);
    Step {
        line,
        stays,
        next: Merge { walk, bound },
    }
}
