// A block behind its length. The neighbour index and the extended data each follow a field of 16 bits that counts their bytes; both
// are found whole here, before they are judged.
ghost use Rattle.std.specs.Prelude.{◌≤◌, length};
ghost use Rattle.judge_blocks.specs.Answers.{Behind};

use bits::Cursor;
use format::Part;
use outcome::{Fault, Refusal};

// The block behind the length at byte a; or the place of the length or the block, whichever passes the end.
pub fn block_at(bytes: &[u8], a: usize) -> Result<Part, Fault>
    requires { (length bytes.now ≤ 32768) × (a ≤ length bytes.now) }
    ensures { Behind bytes.now a result }
{
    if bytes.len() - a < 2 {
        return Err(Refusal::Past.at(8 * a));
    }
    let len = Cursor { at: 8 * a }.sure(bytes, 16).value;
    let b = a + 2;
    if bytes.len() - b < len {
        return Err(Refusal::Past.at(8 * b));
    }
    Ok(Part {
        from: b,
        to: b + len,
    })
}
