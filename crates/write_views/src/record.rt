// A record, from its sheet: the header, then the views. The sheet has been judged, and its record's size is known.
ghost use Rattle.std.specs.Prelude.{[], ◌∷◌, ◌≤◌, ◌<◌, length};
ghost use Rattle.put_bytes.specs.Laid.{Laid};
ghost use Rattle.write_views.specs.Records.{device_from, scale_from, ViewsToWrite, ViewsPut, RecordThere, RecordPut};

use crate::view::view_out;
use bits::wide;
use format::Widths;
use put_bytes::{copy, put_two};

// One byte.
fn put_one(out: &mut [u8], n: usize) -> usize
    requires { (1 ≤ length out.old) × (n < 256) }
    ensures { Laid (n ∷ []) out.old out.new result }
{
    out[0] = n as u8;
    1
}

// The header of a record with `size` bytes, up to the device; the sheet starts with its 01.
fn device_out(out: &mut [u8], sheet: &[u8], size: usize) -> usize
    requires { (12 ≤ length sheet.now) × (14 ≤ length out.old) × (size < 65536) }
    ensures { Laid (device_from sheet.now size) out.old out.new result }
{
    let mut at = copy(out, b"FSK\x00010\x00\x00\x00");
    at += put_two(&mut out[at..], size);
    at += copy(&mut out[at..], &sheet[3..5]);
    at
}

// The rest of it: the number of views, the scale, and two bytes that are zero.
fn scale_out(out: &mut [u8], sheet: &[u8], views: usize) -> usize
    requires { (12 ≤ length sheet.now) × (10 ≤ length out.old) × (views < 256) }
    ensures { Laid (scale_from sheet.now views) out.old out.new result }
{
    let mut at = put_one(out, views);
    at += copy(&mut out[at..], &sheet[5..12]);
    at += put_two(&mut out[at..], 0);
    at
}

// The views, whose fields start at byte 12 of the sheet.
fn views_out(out: &mut [u8], sheet: &[u8], w: Widths) -> usize
    requires { ViewsToWrite w sheet.now out.old }
    ensures { ViewsPut w sheet.now out.old out.new result }
{
    let mut p: usize = 12;
    let mut at: usize = 0;
    while p < sheet.len() {
        let view = view_out(&mut out[at..], sheet, p, w);
        at += view.bytes;
        p = view.next;
    }
    at
}

// The record of the sheet: it has `size` bytes and `views` views.
pub fn record_out(out: &mut [u8], sheet: &[u8], size: usize, views: usize) -> usize
    requires { RecordThere sheet.now size views out.old }
    ensures { RecordPut sheet.now size views out.old out.new result }
{
    let w = Widths {
        c: wide(sheet[6]),
        b: wide(sheet[7]),
        k: wide(sheet[8]),
    };
    let mut at = device_out(out, sheet, size);
    at += scale_out(&mut out[at..], sheet, views);
    at += views_out(&mut out[at..], sheet, w);
    at
}
