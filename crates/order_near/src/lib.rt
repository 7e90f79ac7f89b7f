// Whether two lines of a view are neighbours, as the words of a list say; where they say nothing, by the index block of an accepted
// record: the list of the higher line is found, list by list, and looked through for the lower one.
#![tactic(auto)]

ghost use Rattle.order_near.specs.Near.{HasThere, Has, FindThere, FoundAt, NearThere, Near, NearAfterThere, NearAfter};

use bits::Cursor;
use order_walk::walk::{ListWalk, list_at, next_line};
use order_words::word_of;

// Whether line `low` is in the list that `from` is at the start of.
fn list_has(block: &[u8], from: ListWalk, low: usize) -> bool
    requires { HasThere block.now from }
    ensures { Has block.now from low result }
{
    let mut k = from;
    while 0 < k.left {
        let step = next_line(block, k);
        k = step.next;
        if step.line == low {
            return true;
        }
    }
    false
}

// The list of line `line` in the index block `block`: behind those of the lines before it. Counts and differences have w bits.
fn list_of(block: &[u8], w: usize, line: usize) -> ListWalk
    requires { FindThere w block.now line }
    ensures { FoundAt w block.now line result }
{
    let mut p = 8;
    for l in 0..line {
        p = list_at(block, w, p, l).next;
    }
    list_at(block, w, p, line).walk
}

// Whether line `low` is a neighbour of line `high`, which is not below it, by the index block: being neighbours is written once, at
// the higher line.
fn are_near(block: &[u8], high: usize, low: usize) -> bool
    requires { NearThere block.now high }
    ensures { Near block.now high low result }
{
    let w = Cursor::start().sure(block, 8);
    let list = list_of(block, w.value, high);
    list_has(block, list, low)
}

// The same after the words of a list.
pub fn near_after(block: &[u8], words: &[u8], high: usize, low: usize) -> bool
    requires { NearAfterThere block.now high low }
    ensures { NearAfter block.now words.now high low result }
{
    match word_of(words, high, low) {
        Some(joins) => joins,
        None => are_near(block, high, low),
    }
}
