// The listing of the record on standard input. One byte more than a record may have is read, so that a longer one is refused.
#![tactic(auto)]

use format::Header;
use list_text::input::read_full;
use list_text::listing;
use std::io;

fn main(rt: HostRuntime) -> io::Result<()> {
    let mut buffer = [0u8; Header::MOST_BYTES + 1];
    let n = read_full(&mut rt.reader(), &mut buffer)?;
    listing(&rt, &buffer[..n])
}
