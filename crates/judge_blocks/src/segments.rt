// The judge of the extended data: of its block by itself, which ends where the slice ends, and of the block behind its length in a
// record.
ghost use Rattle.std.specs.Prelude.{◌*◌, ◌≤◌, length};
ghost use Rattle.bits.specs.Reads.{Reads};
ghost use Rattle.outcome.specs.Refusals.{bad_segment};
ghost use Rattle.judge_blocks.specs.Answers.{judged, reached, segments_dec, segments_at_dec};

use crate::Reached;
use crate::block::block_at;
use bits::Cursor;
use outcome::{Fault, Refusal};

// The extended block: segments that fill it, one behind the other. What refuses is a place, as all of it is the same refusal.
pub fn judge_segments(block: &[u8]) -> Result<usize, usize>
    requires { length block.now ≤ 65535 }
    ensures { Reads segments_dec block.now 0 (judged bad_segment block.now result) }
{
    let end = 8 * block.len();
    let mut p = Cursor::start();
    let mut size: usize = 0;
    while p.at < end {
        if end - p.at < 32 {
            return Err(p.at);
        }
        let kind = p.sure(block, 16);
        let len = kind.next.sure(block, 16);
        if len.value < 4 {
            return Err(kind.next.at);
        }
        let payload = 8 * (len.value - 4);
        if end - len.next.at < payload {
            return Err(kind.next.at);
        }
        p = Cursor {
            at: len.next.at + payload,
        };
        size += len.value + 1;
    }
    Ok(size)
}

// The extended length at byte a, and the block behind it.
pub fn segments_at(bytes: &[u8], a: usize) -> Result<Reached, Fault>
    requires { (length bytes.now ≤ 32768) × (a ≤ length bytes.now) }
    ensures { Reads segments_at_dec bytes.now (8 * a) (reached result) }
{
    let block = block_at(bytes, a)?;
    let judged = judge_segments(block.of(bytes));
    let size = judged.map_err(|place| Refusal::BadSegment.at(8 * block.from + place))?;
    Ok(Reached {
        next: block.to,
        size,
    })
}
