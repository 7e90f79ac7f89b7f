// The judge of the neighbour index: of its block by itself, which ends where the slice ends, and of the block behind its length in a
// record.
ghost use Rattle.std.specs.Prelude.{◌*◌, ◌≤◌, length};
ghost use Rattle.bits.specs.Reads.{Reads};
ghost use Rattle.outcome.specs.Refusals.{bad_index};
ghost use Rattle.judge_blocks.specs.Answers.{judged, reached, index_dec, index_at_dec};

use crate::Reached;
use crate::block::block_at;
use bits::Cursor;
use bits::ranged::ranged_at;
use judge_zeros::zeros_at;
use outcome::{Fault, Refusal};

// The index block of a view with `lines` lines: w, then for each line a count and that many differences, then zero bits. What refuses
// is a place, as all of it is the same refusal.
pub fn judge_index(block: &[u8], lines: usize) -> Result<usize, usize>
    requires { (length block.now ≤ 65535) × (lines ≤ 1024) }
    ensures { Reads (index_dec lines) block.now 0 (judged bad_index block.now result) }
{
    if block.is_empty() {
        return Ok(0);
    }
    let width = ranged_at(Cursor::start(), block, 1, 16)?;
    let mut p = width.next;
    let mut size: usize = 4;
    for l in 0..lines {
        let count = p.field(block, width.value)?;
        p = count.next;
        let mut least: usize = 0;
        let mut most = l;
        for _ in 0..count.value {
            let d = p.field(block, width.value)?;
            if d.value < least || most < d.value {
                return Err(p.at);
            }
            p = d.next;
            least = 1;
            most -= d.value;
        }
        size += 3 + 2 * count.value;
    }
    zeros_at(p, block)?;
    if 8 <= 8 * block.len() - p.at {
        return Err(p.at + 7);
    }
    Ok(size)
}

// The index length at byte a, and the block behind it. `segments_at` differs in its judge alone: one function that is handed the judge
// would have a longer contract than both.
pub fn index_at(bytes: &[u8], a: usize, lines: usize) -> Result<Reached, Fault>
    requires { (length bytes.now ≤ 32768) × (a ≤ length bytes.now) × (lines ≤ 1024) }
    ensures { Reads (index_at_dec lines) bytes.now (8 * a) (reached result) }
{
    let block = block_at(bytes, a)?;
    let judged = judge_index(block.of(bytes), lines);
    let size = judged.map_err(|place| Refusal::BadIndex.at(8 * block.from + place))?;
    Ok(Reached {
        next: block.to,
        size,
    })
}
