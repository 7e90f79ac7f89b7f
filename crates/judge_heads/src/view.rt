// The reader of a view's header.
ghost use Rattle.std.specs.Prelude.{◌≡◌, ℕ, ◌+◌, ◌*◌, ◌≤◌, not, length};
ghost use Rattle.bits.specs.Reads.{Reads};
ghost use Rattle.format.specs.View.{impression_ok, head_fields};
ghost use Rattle.judge_heads.specs.Answers.{earlier_of, fields_at, head_at, head_dec};

use bits::{Cursor, wide};
use format::ViewHeader;
use outcome::{Fault, Refusal};

// How many earlier views have the finger position.
fn earlier(seen: &[u8; 11], position: usize) -> usize
    ensures { result ≡ earlier_of seen.now position }
{
    if position <= 10 {
        return wide(seen[position]);
    }
    0
}

fn impression_bad(impression: usize) -> bool
    ensures { result ≡ not (impression_ok impression) }
{
    if impression <= 3 {
        return false;
    }
    if impression == 8 {
        return false;
    }
    impression != 9
}

// The header's eight bytes at the cursor, without the skeleton's length, and the cursor behind them; or the place of the first field that
// is not right. seen counts the earlier views of each position. A sheet has these bytes too, with a refusal of its own.
pub fn head_fields(p: Cursor, bytes: &[u8], seen: &[u8; 11]) -> Result<(ViewHeader, Cursor), usize>
    requires { (length bytes.now ≤ 65535) × (p.at + 64 ≤ 8 * length bytes.now) }
    ensures { (e : ℕ) → Reads (head_fields e (earlier_of seen.now)).dec bytes.now p.at (fields_at e result) }
{
    let number = p.sure(bytes, 8);
    let position = number.next.sure(bytes, 8);
    let impression = position.next.sure(bytes, 8);
    let quality = impression.next.sure(bytes, 8);
    let width = quality.next.sure(bytes, 16);
    let height = width.next.sure(bytes, 16);
    let finger = position.value;
    if number.value != earlier(seen, finger) {
        return Err(p.at);
    }
    if 10 < finger {
        return Err(p.at + 8);
    }
    let kind = impression.value;
    if impression_bad(kind) {
        return Err(p.at + 16);
    }
    if 100 < quality.value {
        return Err(p.at + 24);
    }
    let head = ViewHeader {
        number: number.value,
        position: finger,
        impression: kind,
        quality: quality.value,
        width: width.value,
        height: height.value,
    };
    Ok((head, height.next))
}

// The header at byte a, with the skeleton's length.
pub fn head_at(bytes: &[u8], a: usize, seen: &[u8; 11]) -> Result<(ViewHeader, usize), Fault>
    requires { (length bytes.now ≤ 32768) × (a ≤ length bytes.now) }
    ensures { Reads (head_dec seen.now) bytes.now (8 * a) (head_at a result) }
{
    let at = 8 * a;
    if bytes.len() - a < 10 {
        return Err(Refusal::Past.at(at));
    }
    let (head, p) = match head_fields(Cursor { at }, bytes, seen) {
        Ok(read) => read,
        Err(place) => return Err(Refusal::BadView.at(place)),
    };
    let len = p.sure(bytes, 16);
    Ok((head, len.value))
}
