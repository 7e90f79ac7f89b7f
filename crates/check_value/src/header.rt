// The values of the two headers, 01 and 02. Their rules are the record's own, so the readers of a record's parts judge them.
ghost use Rattle.std.specs.Prelude.{◌≡◌, length};
ghost use Rattle.sheet.specs.Values.{header_value, view_head_value};
ghost use Rattle.judge_heads.specs.Answers.{earlier_of};
ghost use Rattle.check_value.specs.Worth.{Told};

use bits::Cursor;
use format::{Header, ViewHeader};
use judge_heads::header::scale_at;
use judge_heads::view::head_fields;

// The value of a 01: certificates and device, then the scale.
pub fn header_value(value: &[u8]) -> Option<Header>
    requires { length value.now ≡ 9 }
    ensures { Told header_value value.now result }
{
    let device = Cursor::start().sure(value, 16);
    let (scale, _) = scale_at(device.next, value).ok()?;
    Some(Header {
        device: device.value,
        scale,
    })
}

// The value of a 02; seen counts the earlier views of each position.
pub fn head_value(value: &[u8], seen: &[u8; 11]) -> Option<ViewHeader>
    requires { length value.now ≡ 8 }
    ensures { Told (view_head_value (earlier_of seen.now)) value.now result }
{
    let (head, _) = head_fields(Cursor::start(), value, seen).ok()?;
    Some(head)
}
