// The sizes of a card's object, and what each fixes of a record. The object's format is in specs/.
#![tactic(auto)]

ghost use Rattle.std.specs.Prelude.{◌≡◌};
ghost use Rattle.card.specs.Size.{scale_of};
ghost use Rattle.card.specs.Sizes.{known_scale};

use format::{Scale, Widths};

// 0 is the normal size, 1 the compact one.
pub fn scale_of(size: u32) -> Option<Scale>
    ensures { known_scale result ≡ scale_of size }
{
    match size {
        0 => Some(Scale {
            points: 200,
            widths: Widths { c: 11, b: 8, k: 4 },
            step: 24,
            ratio: 60,
            half: 32,
        }),
        1 => Some(Scale {
            points: 100,
            widths: Widths { c: 8, b: 6, k: 4 },
            step: 16,
            ratio: 60,
            half: 32,
        }),
        _ => None,
    }
}
