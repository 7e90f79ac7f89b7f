// Whether the fields of a sheet obey its grammar: their tags, their order, their lengths and how many they are. No field is cut, so
// that code goes from field to field by the lengths; it goes over them once, and looks at no value.
#![tactic(auto)]

ghost use Rattle.std.specs.Prelude.{◌≡◌, ◌<◌};
ghost use Rattle.check_fields.specs.Fields.{Fields};
ghost use Rattle.check_shape.specs.Shape.{Standing, Starts, Begins, right_size, Passes, IndexEnds, ViewEnds, Shape};

use bits::{two_at, wide};
use format::ViewHeader;

// Fields that may come several times: their tag, and the lengths that their values may have, from least to most by step.
#[derive(Clone, Copy)]
struct Kind {
    tag: usize,
    least: usize,
    most: usize,
    step: usize,
}

impl Kind {
    const LINES: Kind = Kind {
        tag: 3,
        least: 12,
        most: 267,
        step: 1,
    };

    const LISTS: Kind = Kind {
        tag: 5,
        least: 0,
        most: 65535,
        step: 2,
    };

    const SEGMENTS: Kind = Kind {
        tag: 6,
        least: 2,
        most: 65535,
        step: 1,
    };

    // Whether the value of such a field may have `size` bytes.
    fn allows(self, size: usize) -> bool
        requires { 0 < self.step }
        ensures { result ≡ right_size self size }
    {
        self.least <= size && size <= self.most && size % self.step == 0
    }
}

// How many fields were passed, and the byte behind them.
#[derive(Clone, Copy)]
struct Passed {
    count: usize,
    next: usize,
}

// Whether a field with this tag starts at byte p.
pub fn starts(sheet: &[u8], p: usize, tag: usize) -> bool
    requires { Standing sheet.now p }
    ensures { Starts tag sheet.now p result }
{
    p < sheet.len() && wide(sheet[p]) == tag
}

// Whether a field with this tag, whose value has `size` bytes, starts at byte p.
fn begins(sheet: &[u8], p: usize, tag: usize, size: usize) -> bool
    requires { Standing sheet.now p }
    ensures { Begins tag size sheet.now p result }
{
    starts(sheet, p, tag) && two_at(sheet, p + 1) == size
}

// The fields of this kind from byte p on, as long as they come; none where one has a wrong length.
fn pass(sheet: &[u8], p: usize, kind: Kind) -> Option<Passed>
    requires { Standing sheet.now p × (0 < kind.step) }
    ensures { Passes kind sheet.now p result }
{
    let mut next = p;
    let mut count: usize = 0;
    while starts(sheet, next, kind.tag) {
        let size = two_at(sheet, next + 1);
        if !kind.allows(size) {
            return None;
        }
        next += 3 + size;
        count += 1;
    }
    Some(Passed { count, next })
}

// Where the index of a view with `lines` lines ends: it is nothing, or an 04 and a list for each line.
fn index_end(sheet: &[u8], p: usize, lines: usize) -> Option<usize>
    requires { Standing sheet.now p }
    ensures { IndexEnds lines sheet.now p result }
{
    if !starts(sheet, p, 4) {
        return Some(p);
    }
    if !begins(sheet, p, 4, 1) {
        return None;
    }
    let lists = pass(sheet, p + 4, Kind::LISTS)?;
    if lists.count != lines {
        return None;
    }
    Some(lists.next)
}

// Where the view ends whose 02 should start at byte p.
fn view_end(sheet: &[u8], p: usize) -> Option<usize>
    requires { Standing sheet.now p }
    ensures { ViewEnds sheet.now p result }
{
    if !begins(sheet, p, 2, 8) {
        return None;
    }
    let lines = pass(sheet, p + 11, Kind::LINES)?;
    if ViewHeader::MOST_LINES < lines.count {
        return None;
    }
    let index = index_end(sheet, lines.next, lines.count)?;
    let segments = pass(sheet, index, Kind::SEGMENTS)?;
    Some(segments.next)
}

// Whether the fields of the sheet obey the sheet's grammar.
pub fn shape(sheet: &[u8]) -> bool
    requires { Fields sheet.now }
    ensures { Shape sheet.now result }
{
    if !begins(sheet, 0, 1, 9) {
        return false;
    }
    let mut p: usize = 12;
    let mut views: usize = 0;
    while p < sheet.len() {
        let Some(next) = view_end(sheet, p) else {
            return false;
        };
        p = next;
        views += 1;
    }
    0 < views && views <= 255
}
