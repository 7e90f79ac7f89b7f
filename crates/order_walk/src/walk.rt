// One list of neighbours as it stands in an index block, line by line.
ghost use Rattle.order_walk.specs.Walk.{WalkThere, NextLine, EntryThere, EntryAt};

use bits::Cursor;

// A list from here on: how many bits its numbers have, where its next difference stands and how many are left, and the line before.
#[derive(Clone, Copy)]
pub struct ListWalk {
    pub width: usize,
    pub at: usize,
    pub left: usize,
    pub base: usize,
}

// A line of the list, and the list behind it.
#[derive(Clone, Copy)]
pub struct LineStep {
    pub line: usize,
    pub next: ListWalk,
}

// A list that is found: the walk along it, and where the next list starts.
#[derive(Clone, Copy)]
pub struct Entry {
    pub walk: ListWalk,
    pub next: usize,
}

// Line l's list, which starts at place p of the index block `block`, with numbers of w bits.
pub fn list_at(block: &[u8], w: usize, p: usize, l: usize) -> Entry
    requires { EntryThere w block.now p l }
    ensures { EntryAt w block.now p l result }
{
    let count = Cursor { at: p }.sure(block, w);
    let at = p + w;
    let left = count.value;
    let walk = ListWalk {
        width: w,
        at,
        left,
        base: l,
    };
    Entry {
        walk,
        next: at + left * w,
    }
}

// The next line of the list at `k`, which is not at its end.
pub fn next_line(block: &[u8], k: ListWalk) -> LineStep
    requires { WalkThere block.now k }
    ensures { NextLine block.now k result }
{
    let width = k.width;
    let at = k.at;
    let d = Cursor { at }.sure(block, width);
    let line = k.base - d.value;
    let next = ListWalk {
        width,
        at: at + width,
        left: k.left - 1,
        base: line,
    };
    LineStep { line, next }
}
