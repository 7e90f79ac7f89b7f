// The least width for the lists of an index.
ghost use Rattle.std.specs.Prelude.{◌≡◌};
ghost use Rattle.orders.specs.Least.{find};

// The least width, at least 1, that holds the number `most`, which has at most 16 bits.
pub fn least_width(most: usize) -> usize
    ensures { result ≡ find 15 1 most }
{
    for w in 1..16 {
        if most < 1 << w {
            return w;
        }
    }
    16
}
