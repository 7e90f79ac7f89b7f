// A record's sheet: 01, its header; then the fields of its views. The judge has accepted the record, and has counted what its
// sheet takes.
ghost use Rattle.std.specs.Prelude.{◌≤◌, length};
ghost use Rattle.put_bytes.specs.Laid.{Laid};
ghost use Rattle.read_views.specs.SheetOuts.{header_field, ViewsToRead, ViewsOut, SheetThere, SheetOut};

use crate::view::view_out;
use format::{Header, Widths};
use put_bytes::{copy, put_three};

// The 01 field.
fn header_out(out: &mut [u8], bytes: &[u8]) -> usize
    requires { (22 ≤ length bytes.now) × (12 ≤ length out.old) }
    ensures { Laid (header_field bytes.now) out.old out.new result }
{
    let mut at = put_three(out, 1, 9);
    at += copy(&mut out[at..], &bytes[12..14]);
    at += copy(&mut out[at..], &bytes[15..22]);
    at
}

// The fields of the record's views, `count` of them; w are the widths of their fields.
fn views_out(out: &mut [u8], bytes: &[u8], w: Widths, count: usize) -> usize
    requires { ViewsToRead w count bytes.now (length out.old) }
    ensures { ViewsOut bytes.now out.old out.new result }
{
    let mut p: usize = Header::BYTES;
    let mut at: usize = 0;
    for _ in 0..count {
        let v = view_out(&mut out[at..], bytes, p, w);
        at += v.written;
        p = v.next;
    }
    at
}

// Its sheet.
pub fn sheet_out(out: &mut [u8], bytes: &[u8], w: Widths, count: usize) -> usize
    requires { SheetThere w count bytes.now (length out.old) }
    ensures { SheetOut bytes.now out.old out.new result }
{
    let mut at = header_out(out, bytes);
    at += views_out(&mut out[at..], bytes, w, count);
    at
}
