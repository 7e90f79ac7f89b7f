// The words of a list of pairs, as its bytes stand: "three 16-bit numbers each (0 join or 1 part, two lines)". They are looked through
// where they stand; no table is made of them.
#![tactic(auto)]

ghost use Rattle.std.specs.Prelude.{◌≡◌, suc, ◌+◌, ◌*◌, ◌≤◌, length};
ghost use Rattle.orders.specs.Listed.{words, shape_ok};
ghost use Rattle.orders.specs.History.{said};
ghost use Rattle.order_words.specs.After.{word_at, heard_in};
ghost use Rattle.order_words.specs.Looked.{OneThere, OneWord, paired, Says, Bound, NextHigh, TurnThere, TurnTold};

use bits::two_at;

// A word: its two lines, of which `low` is not above `high`, and whether it joins them or parts them.
#[derive(Clone, Copy)]
pub struct Pair {
    pub high: usize,
    pub low: usize,
    pub joins: bool,
}

impl Pair {
    // How many orders a list may have at most: places in a list have 32 bits.
    pub const MOST: usize = 4294967296;
}

// What the words say about a line as the higher one: `bound` is one more than the highest line that a word names beside it, or 0; and
// `next` is the next line that is the higher one of a word, if there is one.
#[derive(Clone, Copy)]
pub struct About {
    pub bound: usize,
    pub next: Option<usize>,
}

// The list of one order, about lines a and b.
pub fn one_word(a: usize, b: usize, joins: bool) -> [u8; 6]
    requires { OneThere a b }
    ensures { OneWord a b joins result }
{
    [
        0,
        u8::from(!joins),
        (a / 256) as u8,
        (a % 256) as u8,
        (b / 256) as u8,
        (b % 256) as u8,
    ]
}

// Whether the list has its shape: 25 where it has not.
pub fn shape_right(list: &[u8]) -> bool
    ensures { result ≡ shape_ok list.now }
{
    let size = list.len();
    if size == 0 || size % 6 != 0 || Pair::MOST < size / 6 {
        return false;
    }
    for i in 0..size / 6 {
        if 1 < two_at(list, 6 * i) {
            return false;
        }
    }
    true
}

// The word at place i of the list, which has one there.
pub fn pair_at(list: &[u8], i: usize) -> Pair
    requires { 6 * i + 6 ≤ length list.now }
    ensures { result ≡ paired (word_at (words list.now) i) }
{
    let at = 6 * i;
    let a = two_at(list, at + 2);
    let b = two_at(list, at + 4);
    Pair {
        high: a.max(b),
        low: a.min(b),
        joins: two_at(list, at) == 0,
    }
}

// The last word of the list about lines `high` and `low`, if there is one: whether it joins them.
pub fn word_of(list: &[u8], high: usize, low: usize) -> Option<bool>
    requires { low ≤ high }
    ensures { Says list.now high low result }
{
    for i in (0..list.len() / 6).rev() {
        let pair = pair_at(list, i);
        if pair.high == high && pair.low == low {
            return Some(pair.joins);
        }
    }
    None
}

// Whether lines `high` and `low` are neighbours after all words of the list; `start` says whether they were before.
pub fn said_about(list: &[u8], high: usize, low: usize, start: bool) -> bool
    requires { low ≤ high }
    ensures { result ≡ said (heard_in list.now) high low start }
{
    word_of(list, high, low).unwrap_or(start)
}

// One more than the highest line below `before` that a word of the list names beside line `high`; 0 where there is none.
pub fn low_bound(list: &[u8], high: usize, before: usize) -> usize
    requires { before ≤ suc high }
    ensures { Bound list.now high before result }
{
    let mut bound: usize = 0;
    for i in 0..list.len() / 6 {
        let pair = pair_at(list, i);
        if pair.high == high && pair.low < before {
            bound = bound.max(pair.low + 1);
        }
    }
    bound
}

// The lowest line from `from` on that is the higher one of a word of the list, if there is one.
pub fn next_high(list: &[u8], from: usize) -> Option<usize>
    ensures { NextHigh list.now from result }
{
    let mut next: Option<usize> = None;
    for i in 0..list.len() / 6 {
        let high = pair_at(list, i).high;
        if from <= high {
            next = match next {
                Some(line) => Some(line.min(high)),
                None => Some(high),
            };
        }
    }
    next
}

// What the words of the list say about line l; `named` is the lowest line from l on that is the higher one of a word.
pub fn about_line(list: &[u8], l: usize, named: Option<usize>) -> About
    requires { TurnThere list.now l named }
    ensures { TurnTold list.now l result }
{
    if named != Some(l) {
        return About {
            bound: 0,
            next: named,
        };
    }
    About {
        bound: low_bound(list, l, l + 1),
        next: next_high(list, l + 1),
    }
}
