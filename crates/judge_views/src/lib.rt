// The nest over views, lines and codes. What refuses leaves it by one label, from whatever depth, as document 01 asks.
#![tactic(auto)]

ghost use Rattle.std.specs.Prelude.{◌≡◌, ◌≤◌, length};
ghost use Rattle.bits.specs.Reads.{Reads};
ghost use Rattle.judge_blocks.specs.Answers.{reached};
ghost use Rattle.judge_views.specs.Views.{views_dec, sheet_bytes};

use bits::Cursor;
use format::{Header, ViewHeader, Widths};
use judge_blocks::Reached;
use judge_blocks::index::index_at;
use judge_blocks::segments::segments_at;
use judge_heads::view::head_at;
use judge_zeros::zeros_at;
use outcome::{Fault, Refusal};

// The views, from byte 24 on; seen counts those of each position, size the bytes in the sheet. Ends and codes are right whatever their
// bits are, so they are passed by one comparison with the bits left: 128 codes in a turn, and the last of them with the line's end.
pub fn judge_views(bytes: &[u8], w: Widths, count: usize) -> Result<Reached, Fault>
    requires { (24 ≤ length bytes.now) × (length bytes.now ≤ 32768) × (count ≤ 255) × (w.b ≤ 8) × (w.c ≤ 16) × (w.k ≤ 8) }
    ensures { Reads (views_dec w count) bytes.now 192 (reached result) × (sheet_bytes result ≤ 137438953472) }
{
    let end_bits = 2 + w.b + 2 * w.c;
    let mut seen = [0u8; 11];
    let mut a: usize = Header::BYTES;
    let mut size: usize = 0;
    'views: {
        for _ in 0..count {
            let (head, len) = match head_at(bytes, a, &seen) {
                Ok(read) => read,
                Err(fault) => break 'views Err(fault),
            };
            let b = a + 10;
            if bytes.len() - b < len {
                break 'views Err(Refusal::Past.at(8 * b));
            }
            let e = b + len;
            let block = &bytes[b..e];
            let end = 8 * block.len();
            let mut p = Cursor::start();
            let mut lines: usize = 0;
            let mut n: usize = 0;
            while 8 <= end - p.at {
                let place = 8 * b + p.at;
                if n == ViewHeader::MOST_LINES {
                    break 'views Err(Refusal::TooManyLines.at(place));
                }
                if end - p.at < end_bits + 8 {
                    break 'views Err(Refusal::BadLine.at(place));
                }
                let stated = Cursor {
                    at: p.at + end_bits,
                }
                .sure(block, 8);
                p = stated.next;
                let mut left = stated.value;
                while 128 < left {
                    if end - p.at < 128 * w.k {
                        break 'views Err(Refusal::BadLine.at(place));
                    }
                    p = Cursor {
                        at: p.at + 128 * w.k,
                    };
                    left -= 128;
                }
                let rest = left * w.k + end_bits;
                if end - p.at < rest {
                    break 'views Err(Refusal::BadLine.at(place));
                }
                p = Cursor { at: p.at + rest };
                lines += 15 + stated.value;
                n += 1;
            }
            if let Err(place) = zeros_at(p, block) {
                break 'views Err(Refusal::BadLine.at(8 * b + place));
            }
            let index = match index_at(bytes, e, n) {
                Ok(reached) => reached,
                Err(fault) => break 'views Err(fault),
            };
            let segments = match segments_at(bytes, index.next) {
                Ok(reached) => reached,
                Err(fault) => break 'views Err(fault),
            };
            seen[head.position] += 1;
            size += 11 + lines + index.size + segments.size;
            a = segments.next;
        }
        Ok(Reached { next: a, size })
    }
}
