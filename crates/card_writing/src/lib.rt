// The card's object of a view: the record is judged and the view found, then its bytes from the width up to the end of the index are laid
// down as the value of object 90.
#![tactic(auto)]

ghost use Rattle.outcome.specs.Outcome.{Answers};
ghost use Rattle.outcome.specs.Why.{answer_of};
ghost use Rattle.card.specs.Card.{card_write};
ghost use Rattle.card_writing.specs.Writing.{LengthBytes, LengthRoom, LengthLaid, TaggedShort, TaggedBytes, ValueShort, InnerRoom, InnerLaid, ObjectRoom, ObjectLaid, ObjectGiven};

use card::scale_of;
use card_shape::Tag;
use find_view::find_view;
use format::ViewName;
use outcome::{Answer, Refusal, Refused};
use put_bytes::{copy, put_three, put_two};

// How many bytes a length takes in its shortest form.
fn length_bytes(n: usize) -> usize
    ensures { LengthBytes n result }
{
    if n < 128 {
        return 1;
    }
    if n < 256 {
        return 2;
    }
    3
}

// A length in its shortest form.
fn put_length(out: &mut [u8], n: usize) -> usize
    requires { LengthRoom n out.old }
    ensures { LengthLaid n out.old out.new result }
{
    if 255 < n {
        return put_three(out, 0x82, n);
    }
    if 127 < n {
        return put_two(out, 0x8100 + n);
    }
    out[0] = (n % 256) as u8;
    1
}

// How many bytes a data object takes whose tag has `tag` bytes and whose value has n.
fn tagged_bytes(tag: usize, n: usize) -> usize
    requires { TaggedShort tag n }
    ensures { TaggedBytes tag n result }
{
    tag + length_bytes(n) + n
}

// Object 90 with this value.
fn inner_put(out: &mut [u8], value: &[u8]) -> usize
    requires { InnerRoom value.now out.old }
    ensures { InnerLaid value.now out.old out.new result }
{
    let mut at = copy(out, b"\x90");
    at += put_length(&mut out[at..], value.len());
    at += copy(&mut out[at..], value);
    at
}

// The template with it alone.
fn object_put(out: &mut [u8], value: &[u8]) -> usize
    requires { ObjectRoom value.now out.old }
    ensures { ObjectLaid value.now out.old out.new result }
{
    let inner = tagged_bytes(1, value.len());
    let mut at = put_two(out, Tag::TEMPLATE);
    at += put_length(&mut out[at..], inner);
    at += inner_put(&mut out[at..], value);
    at
}

// The same, where there is room: 20.
fn object_given(out: &mut [u8], value: &[u8]) -> Result<usize, Refused>
    requires { ValueShort value.now }
    ensures { ObjectGiven value.now out.old out.new (answer_of result) }
{
    let inner = tagged_bytes(1, value.len());
    if out.len() < tagged_bytes(2, inner) {
        return Err(Refusal::NoRoom.into());
    }
    Ok(object_put(out, value))
}

// The object of a view of any bytes, at any size: 27, 1 to 13, 28, 20.
fn write_card(size: u32, bytes: &[u8], view: ViewName, out: &mut [u8]) -> Result<usize, Refused>
    ensures { Answers (card_write size view bytes.now) out.old out.new (answer_of result) }
{
    let wanted = scale_of(size).ok_or(Refusal::BadObject)?;
    let found = find_view(bytes, view)?;
    if found.scale != wanted {
        return Err(Refusal::OtherScale.into());
    }
    let from = found.blocks.skeleton.from - 6;
    let to = found.blocks.index.to;
    object_given(out, &bytes[from..to])
}

// The same, as a call answers.
pub fn card_write(size: u32, bytes: &[u8], view: ViewName, out: &mut [u8]) -> Answer
    ensures { Answers (card_write size view bytes.now) out.old out.new result }
{
    Answer::of(write_card(size, bytes, view, out))
}
