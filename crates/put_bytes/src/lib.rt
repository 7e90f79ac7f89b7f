// Bytes laid at the start of a lent buffer; what lies beyond them stays. A caller lends the rest of its own buffer, from where
// the bytes before ended.
#![tactic(auto)]

ghost use Rattle.std.specs.Prelude.{◌≤◌, ◌<◌, length};
ghost use Rattle.put_bytes.specs.Laid.{Laid};
ghost use Rattle.put_bytes.specs.HighFirst.{two, four, start};

// The bytes of src. Of C's library the archive uses memset alone (host/fsk.3.in): copy_from_slice would ask memmove of it, a loop does
// not.
pub fn copy(out: &mut [u8], src: &[u8]) -> usize
    requires { length src.now ≤ length out.old }
    ensures { Laid src.now out.old out.new result }
{
    for (i, byte) in src.iter().enumerate() {
        out[i] = *byte;
    }
    src.len()
}

// A number of 16 bits, high byte first.
pub fn put_two(out: &mut [u8], n: usize) -> usize
    requires { (2 ≤ length out.old) × (n < 65536) }
    ensures { Laid (two n) out.old out.new result }
{
    out[..2].copy_from_slice(&(n as u16).to_be_bytes());
    2
}

// A number of 32 bits, high byte first.
pub fn put_four(out: &mut [u8], n: usize) -> usize
    requires { (4 ≤ length out.old) × (n < 4294967296) }
    ensures { Laid (four n) out.old out.new result }
{
    out[..4].copy_from_slice(&(n as u32).to_be_bytes());
    4
}

// A byte, then a number of 16 bits: how a tagged field starts.
pub fn put_three(out: &mut [u8], tag: usize, n: usize) -> usize
    requires { (3 ≤ length out.old) × (tag < 256) × (n < 65536) }
    ensures { Laid (start tag n) out.old out.new result }
{
    out[0] = tag as u8;
    1 + put_two(&mut out[1..], n)
}
