// The shape of a card's object: template 7F2E, object 90 first in it, the two blocks of 90's value, and whatever objects follow. What is
// found is where the value and its blocks stand; their bytes are not judged here.
#![tactic(auto)]

ghost use Rattle.std.specs.Prelude.{◌+◌, ◌≤◌, length};
ghost use Rattle.card_shape.specs.Shape.{LengthFound, ValueFound, OthersFound, BlocksFound, TemplateFound, ShapeFound};

use bits::{two_at, wide};
use format::Part;

// The tags of the two objects that the library knows: numbers, since what is compared with them is whatever bytes stand there.
#[derive(Clone, Copy)]
pub struct Tag;

impl Tag {
    pub const TEMPLATE: usize = 0x7F2E;

    pub const SKELETON: usize = 0x90;
}

// A length, and the byte behind it.
#[derive(Clone, Copy)]
pub struct LengthAt {
    pub length: usize,
    pub next: usize,
}

// The value of object 90 from byte `from` up to byte `to`, with the index's length at byte `index`: the skeleton block stands from byte
// from + 6 up to there, the index block behind it up to `to`.
#[derive(Clone, Copy)]
pub struct Value {
    pub from: usize,
    pub index: usize,
    pub to: usize,
}

// The length at byte a; none where it is cut or not in its shortest form.
fn length_at(bytes: &[u8], a: usize) -> Option<LengthAt>
    requires { a ≤ length bytes.now }
    ensures { LengthFound bytes.now a result }
{
    let left = bytes.len() - a;
    if left < 1 {
        return None;
    }
    let first = wide(bytes[a]);
    let b = a + 1;
    if first < 128 {
        return Some(LengthAt {
            length: first,
            next: b,
        });
    }
    if first == 0x81 {
        if left < 2 {
            return None;
        }
        let one = wide(bytes[b]);
        if one < 128 {
            return None;
        }
        return Some(LengthAt {
            length: one,
            next: b + 1,
        });
    }
    if first != 0x82 {
        return None;
    }
    if left < 3 {
        return None;
    }
    let two = two_at(bytes, b);
    if two < 256 {
        return None;
    }
    Some(LengthAt {
        length: two,
        next: b + 2,
    })
}

// The value behind the length at byte a; none where it is cut.
fn value_at(bytes: &[u8], a: usize) -> Option<Part>
    requires { a ≤ length bytes.now }
    ensures { ValueFound bytes.now a result }
{
    let LengthAt { length, next } = length_at(bytes, a)?;
    if bytes.len() - next < length {
        return None;
    }
    Some(Part {
        from: next,
        to: next + length,
    })
}

// Whether the bytes are data objects, each with a tag of one byte.
fn others_right(bytes: &[u8]) -> bool
    ensures { OthersFound bytes.now result }
{
    let mut a: usize = 0;
    // Each turn goes on by the length that an object states.
    while a < bytes.len() {
        let Some(value) = value_at(bytes, a + 1) else {
            return false;
        };
        a = value.to;
    }
    true
}

// The blocks of a value, by the byte of the index's length; none where they do not fill the value.
fn blocks_in(value: &[u8]) -> Option<usize>
    ensures { BlocksFound value.now result }
{
    if value.len() < 6 {
        return None;
    }
    let skeleton = two_at(value, 4);
    if value.len() - 6 < skeleton {
        return None;
    }
    let i = 6 + skeleton;
    if value.len() - i < 2 {
        return None;
    }
    let index = two_at(value, i);
    if value.len() - (i + 2) != index {
        return None;
    }
    Some(i)
}

// The template's bytes: object 90, its value's blocks, and the objects behind it.
fn template_at(bytes: &[u8]) -> Option<Value>
    ensures { TemplateFound bytes.now result }
{
    if bytes.len() < 1 {
        return None;
    }
    if wide(bytes[0]) != Tag::SKELETON {
        return None;
    }
    let Part { from, to } = value_at(bytes, 1)?;
    let i = blocks_in(&bytes[from..to])?;
    if !others_right(&bytes[to..]) {
        return None;
    }
    Some(Value {
        from,
        index: from + i,
        to,
    })
}

// The object: its template, and nothing behind it.
pub fn shape_of(object: &[u8]) -> Option<Value>
    ensures { ShapeFound object.now result }
{
    if object.len() < 2 {
        return None;
    }
    if two_at(object, 0) != Tag::TEMPLATE {
        return None;
    }
    let Part { from: a, to: b } = value_at(object, 2)?;
    let value = template_at(&object[a..b])?;
    if b < object.len() {
        return None;
    }
    Some(Value {
        from: a + value.from,
        index: a + value.index,
        to: a + value.to,
    })
}
