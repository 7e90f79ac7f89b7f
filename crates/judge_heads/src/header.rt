// The reader of a record's header, and of the scale in it. A field is judged as soon as it is read, so that the first one at fault
// is the one refused.
ghost use Rattle.std.specs.Prelude.{ℕ, ◌*◌, ◌≤◌, length};
ghost use Rattle.bits.specs.Reads.{Reads};
ghost use Rattle.format.specs.Record.{scale};
ghost use Rattle.judge_heads.specs.Answers.{header_at, scale_at, header_dec};

use bits::Cursor;
use bits::ranged::ranged_at;
use format::{Header, Scale, Widths};
use outcome::{Fault, Refusal};

// The seven bytes at the cursor, and the cursor behind them; or the place of the field outside its range. A sheet has them too, with a
// refusal of its own.
pub fn scale_at(p: Cursor, bytes: &[u8]) -> Result<(Scale, Cursor), usize>
    requires { (length bytes.now ≤ 65535) × (p.at ≤ 8 * length bytes.now) }
    ensures { (e : ℕ) → Reads (scale e).dec bytes.now p.at (scale_at e result) }
{
    let points = ranged_at(p, bytes, 1, 255)?;
    let c = ranged_at(points.next, bytes, 1, 16)?;
    let b = ranged_at(c.next, bytes, 4, 8)?;
    let k = ranged_at(b.next, bytes, 2, 8)?;
    let step = ranged_at(k.next, bytes, 1, 255)?;
    let ratio = step.next.field(bytes, 8)?;
    let half = ranged_at(ratio.next, bytes, 1, 255)?;
    let widths = Widths {
        c: c.value,
        b: b.value,
        k: k.value,
    };
    let scale = Scale {
        points: points.value,
        widths,
        step: step.value,
        ratio: ratio.value,
        half: half.value,
    };
    Ok((scale, half.next))
}

// A record's header, and how many views there are.
pub fn header_at(bytes: &[u8]) -> Result<(Header, usize), Fault>
    requires { (24 ≤ length bytes.now) × (length bytes.now ≤ 32768) }
    ensures { Reads (header_dec (length bytes.now)) bytes.now 0 (header_at result) }
{
    let id = Cursor::start().halves(bytes);
    if id.value != 0x46534B00 {
        return Err(Refusal::BadIdentifier.at(0));
    }
    let version = id.next.halves(bytes);
    if version.value != 0x30313000 {
        return Err(Refusal::BadVersion.at(32));
    }
    let len = version.next.halves(bytes);
    if len.value != bytes.len() {
        return Err(Refusal::BadLength.at(64));
    }
    let device = len.next.sure(bytes, 16);
    let views = device.next.sure(bytes, 8);
    if views.value < 1 {
        return Err(Refusal::BadHeader.at(112));
    }
    let (scale, p) = match scale_at(views.next, bytes) {
        Ok(read) => read,
        Err(place) => return Err(Refusal::BadHeader.at(place)),
    };
    let reserved = p.sure(bytes, 16);
    if reserved.value != 0 {
        return Err(Refusal::BadHeader.at(176));
    }
    let header = Header {
        device: device.value,
        scale,
    };
    Ok((header, views.value))
}
