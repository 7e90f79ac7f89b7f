// A number that needs few bits, whatever bits it is written in.
ghost use Rattle.std.specs.Prelude.{◌≡◌, ◌^◌, ◌≤◌, ltb};

// Whether n is below 2 to the m.
pub fn narrow(n: usize, m: usize) -> bool
    requires { m ≤ 16 }
    ensures { result ≡ ltb n (2 ^ m) }
{
    n < 1 << m
}
