// A byte that has a range, as the scale's fields and the width of a neighbour index. One that passes the end is refused as one
// outside its range is, at the byte's own place.
ghost use Rattle.std.specs.Prelude.{ℕ, ◌*◌, ◌≤◌, length};
ghost use Rattle.bits.specs.CodecLaws.{ranged};
ghost use Rattle.bits.specs.Reads.{Reads, taken};

use crate::{Cursor, Sure};

// The byte at the cursor, which may be low to high, and the cursor behind it; or its own place, where it is refused.
pub fn ranged_at(p: Cursor, bytes: &[u8], low: usize, high: usize) -> Result<Sure, usize>
    requires { (length bytes.now ≤ 65535) × (p.at ≤ 8 * length bytes.now) }
    ensures { (e : ℕ) → Reads (ranged e 8 low high).dec bytes.now p.at (taken e result) }
{
    let byte = p.field(bytes, 8)?;
    if byte.value < low {
        return Err(p.at);
    }
    if high < byte.value {
        return Err(p.at);
    }
    Ok(byte)
}
