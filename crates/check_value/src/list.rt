// The values of an index: 04, its width, and 05, the neighbours of a line by number, two bytes each. Neighbours fall from the line
// on; their count and the differences between them fit the width.
ghost use Rattle.std.specs.Prelude.{◌≡◌, ◌/◌, ◌%◌, ◌≤◌, ◌<◌, length};
ghost use Rattle.sheet.specs.Values.{width_value, list_value};
ghost use Rattle.check_value.specs.Worth.{Told, Tested};

use crate::narrow::narrow;
use bits::Cursor;
use bits::ranged::ranged_at;

// The value of a 04: 1 to 16.
pub fn width_value(value: &[u8]) -> Option<usize>
    requires { length value.now ≡ 1 }
    ensures { Told width_value value.now result }
{
    let width = ranged_at(Cursor::start(), value, 1, 16).ok()?;
    Some(width.value)
}

// The value of a 05: the neighbours of line l at width w. The first may be the line itself; each other is below the one before.
pub fn list_value(value: &[u8], w: usize, l: usize) -> bool
    requires { (length value.now % 2 ≡ 0) × (length value.now ≤ 65534) × (w ≤ 16) × (l < 1024) }
    ensures { Tested (list_value w l) value.now (λ ns. length ns ≡ length value.now / 2) result }
{
    let count = value.len() / 2;
    if !narrow(count, w) {
        return false;
    }
    let mut before = l;
    let mut least: usize = 0;
    for i in 0..count {
        let n = Cursor { at: 16 * i }.sure(value, 16).value;
        if before < n + least {
            return false;
        }
        if !narrow(before - n, w) {
            return false;
        }
        before = n;
        least = 1;
    }
    true
}
