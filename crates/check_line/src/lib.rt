// The value of a line, 03: two ends of six bytes each, then a byte for each code. Numbers fit the widths of the header.
#![tactic(auto)]

ghost use Rattle.std.specs.Prelude.{◌≡◌, ◌+◌, ◌-◌, ◌*◌, ◌≤◌, ◌<◌, length};
ghost use Rattle.sheet_codes.specs.Code.{code_ok};
ghost use Rattle.sheet.specs.Values.{end_value, line_value};
ghost use Rattle.check_value.specs.Worth.{Tested};
ghost use Rattle.check_line.specs.Parts.{Passes, codes_dec};

use bits::{Cursor, pow2, wide};
use check_value::narrow::narrow;
use format::Widths;

// The six bytes of an end at the cursor: type, direction, x, y.
fn end_right(p: Cursor, value: &[u8], w: Widths) -> bool
    requires { (length value.now ≤ 267) × (p.at + 48 ≤ 8 * length value.now) × (w.b ≤ 8) × (w.c ≤ 16) }
    ensures { Passes (end_value w).dec value.now p.at (p.at + 48) result }
{
    let kind = p.sure(value, 8);
    let direction = kind.next.sure(value, 8);
    let x = direction.next.sure(value, 16);
    let y = x.next.sure(value, 16);
    narrow(kind.value, 2)
        && narrow(direction.value, w.b)
        && narrow(x.value, w.c)
        && narrow(y.value, w.c)
}

// Whether the byte x is the sign extension of its lowest k bits.
fn code_right(x: usize, k: usize) -> bool
    requires { (1 ≤ k) × (k ≤ 8) × (x < 256) }
    ensures { result ≡ code_ok k x }
{
    let all = pow2(k);
    let low = x % all;
    if low < pow2(k - 1) {
        low == x
    } else {
        low + (256 - all) == x
    }
}

// The codes behind the two ends, of k bits each.
fn codes_right(value: &[u8], k: usize) -> bool
    requires { (12 ≤ length value.now) × (length value.now ≤ 267) × (1 ≤ k) × (k ≤ 8) }
    ensures { Passes (codes_dec k) value.now 96 (8 * length value.now) result }
{
    value[12..].iter().all(|code| code_right(wide(*code), k))
}

// The value of a 03, at the widths of the header.
pub fn line_value(value: &[u8], w: Widths) -> bool
    requires { (12 ≤ length value.now) × (length value.now ≤ 267) × (w.c ≤ 16) × (w.b ≤ 8) × (1 ≤ w.k) × (w.k ≤ 8) }
    ensures { Tested (line_value w) value.now (λ l. length l.codes ≡ length value.now - 12) result }
{
    end_right(Cursor::start(), value, w)
        && end_right(Cursor { at: 48 }, value, w)
        && codes_right(value, w.k)
}
