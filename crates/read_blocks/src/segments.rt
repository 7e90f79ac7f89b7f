// The 06 fields: segments. The judge has accepted the block, so each segment is there whole; its type and its payload are copied as
// they stand.
ghost use Rattle.std.specs.Prelude.{◌++◌, ◌+◌, ◌-◌, ◌≤◌, length, take, drop};
ghost use Rattle.put_bytes.specs.Laid.{Laid};
ghost use Rattle.put_bytes.specs.HighFirst.{start};
ghost use Rattle.read_blocks.specs.BlockOuts.{SegmentsToRead, SegmentsOut};

use bits::Cursor;
use put_bytes::{copy, put_three};

// The segment of n bytes, its own four among them, from byte a of `block` on.
fn segment_out(out: &mut [u8], block: &[u8], a: usize, n: usize) -> usize
    requires { (4 ≤ n) × (n ≤ 65535) × (a + n ≤ length block.now) × (n + 1 ≤ length out.old) }
    ensures { Laid ((start 6 (n - 2) ++ take 2 (drop a block.now)) ++ take (n - 4) (drop (a + 4) block.now)) out.old out.new result }
{
    let b = a + 2;
    let c = a + 4;
    let e = a + n;
    let mut at = put_three(out, 6, n - 2);
    at += copy(&mut out[at..], &block[a..b]);
    at += copy(&mut out[at..], &block[c..e]);
    at
}

// The 06 fields of the segments of an extended block.
pub fn segments_out(out: &mut [u8], block: &[u8]) -> usize
    requires { SegmentsToRead block.now (length out.old) }
    ensures { SegmentsOut block.now out.old out.new result }
{
    let mut at: usize = 0;
    let mut a: usize = 0;
    while a < block.len() {
        let n = Cursor { at: 8 * a + 16 }.sure(block, 16).value;
        at += segment_out(&mut out[at..], block, a, n);
        a += n;
    }
    at
}
