// The extended block, from the sheet's 06 fields. A segment has the bytes of its field's value, and its length between type and
// payload.
ghost use Rattle.std.specs.Prelude.{◌++◌, ◌+◌, ◌≤◌, length, take, drop};
ghost use Rattle.put_bytes.specs.Laid.{Laid};
ghost use Rattle.put_bytes.specs.HighFirst.{two};
ghost use Rattle.write_blocks.specs.Outs.{SegmentsToWrite, SegmentsWritten};

use crate::Done;
use bits::{two_at, wide};
use put_bytes::{copy, put_two};

// The segment whose field has the value.
fn segment_out(out: &mut [u8], value: &[u8]) -> usize
    requires { (2 ≤ length value.now) × (length value.now ≤ 65533) × (length value.now + 2 ≤ length out.old) }
    ensures { Laid ((take 2 value.now ++ two (length value.now + 2)) ++ drop 2 value.now) out.old out.new result }
{
    let end = value.len();
    let mut at = copy(out, &value[0..2]);
    at += put_two(&mut out[at..], end + 2);
    at += copy(&mut out[at..], &value[2..end]);
    at
}

// The segments whose fields start at byte a of the sheet.
pub fn segments_out(out: &mut [u8], sheet: &[u8], a: usize) -> Done
    requires { SegmentsToWrite sheet.now a (length out.old) }
    ensures { SegmentsWritten sheet.now a out.old out.new result }
{
    let mut p = a;
    let mut at: usize = 0;
    while p < sheet.len() && wide(sheet[p]) == 6 {
        let from = p + 3;
        let to = from + two_at(sheet, p + 1);
        at += segment_out(&mut out[at..], &sheet[from..to]);
        p = to;
    }
    Done { next: p, bytes: at }
}
