// The zero bits that fill a block up to its end.
#![tactic(auto)]

ghost use Rattle.std.specs.Prelude.{ℕ, ◌-◌, ◌*◌, ◌^◌, ◌≤◌, ◌<◌, length};
ghost use Rattle.bits.specs.Block.{zeros_dec};
ghost use Rattle.bits.specs.Reads.{Reads};
ghost use Rattle.judge_zeros.specs.Zeros.{cleared};

use bits::Cursor;

// The first 1 among the n bits that write the value, counted from 0.
fn first_one(value: usize, n: usize) -> usize
    requires { (1 ≤ value) × (value < 2 ^ n) × (n ≤ 8) }
    ensures { (result < n) × (value < 2 ^ (n - result)) × (2 ^ (n - result - 1) ≤ value) }
{
    n - 1 - value.ilog2() as usize
}

// The bits from the cursor to the end of the block are zero, or else: the place of the first that is 1. Those left of its byte are read,
// then byte by byte.
pub fn zeros_at(p: Cursor, block: &[u8]) -> Result<(), usize>
    requires { (length block.now ≤ 65535) × (p.at ≤ 8 * length block.now) }
    ensures { (e : ℕ) → Reads (zeros_dec e) block.now p.at (cleared e block.now result) }
{
    let mut q = p;
    while q.at < 8 * block.len() {
        let n = 8 - q.at % 8;
        let bits = q.sure(block, n);
        if bits.value != 0 {
            return Err(q.at + first_one(bits.value, n));
        }
        q = bits.next;
    }
    Ok(())
}
