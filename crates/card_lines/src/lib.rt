// The judge of a skeleton block that is lent as a slice of its own, as the one inside a card's object is. It says how many lines the
// block has, or why and where it refuses; a place is in bits.
#![tactic(auto)]

ghost use Rattle.std.specs.Prelude.{◌≤◌, length};
ghost use Rattle.bits.specs.Reads.{Reads};
ghost use Rattle.card_lines.specs.Lines.{lines_dec, lined};

use bits::Cursor;
use format::{ViewHeader, Widths};
use judge_zeros::zeros_at;
use outcome::{Fault, Refusal};

// The block's lines, then zero bits. Ends and codes are right whatever their bits are, so a line is passed by two comparisons with the
// bits left: of its start with the count of codes, and of the codes with its end. Document 01 asks for one nest over views, lines and
// codes, so `judge_views` has this loop inside its own.
pub fn judge_lines(block: &[u8], w: Widths) -> Result<usize, Fault>
    requires { (length block.now ≤ 65535) × (w.b ≤ 8) × (w.c ≤ 16) × (w.k ≤ 8) }
    ensures { Reads (lines_dec w) block.now 0 (lined block.now result) }
{
    let end = 8 * block.len();
    let end_bits = 2 + w.b + 2 * w.c;
    let least = end_bits + 8;
    let mut p = Cursor::start();
    let mut n: usize = 0;
    while 8 <= end - p.at {
        let left = end - p.at;
        if n == ViewHeader::MOST_LINES {
            return Err(Refusal::TooManyLines.at(p.at));
        }
        if left < least {
            return Err(Refusal::BadLine.at(p.at));
        }
        let place = p.at;
        let codes = Cursor {
            at: place + end_bits,
        }
        .sure(block, 8);
        p = codes.next;
        let rest = codes.value * w.k + end_bits;
        if end - p.at < rest {
            return Err(Refusal::BadLine.at(place));
        }
        p = Cursor { at: p.at + rest };
        n += 1;
    }
    zeros_at(p, block).map_err(|place| Refusal::BadLine.at(place))?;
    Ok(n)
}
