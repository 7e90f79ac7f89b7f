// An order that has passed its own tests, or a list of them, carried out: the new record is measured, held against 32,768 bytes and
// the lent room, and only then written.
#![tactic(auto)]

ghost use Rattle.std.specs.Prelude.{◌≡◌};
ghost use Rattle.order_record.specs.Rebuilt.{Placed};
ghost use Rattle.order_carry.specs.Carried.{size_number, number_in, RefusedAt, CarriedOut};

use find_parts::site::Site;
use format::Header;
use order_record::measure::measure;
use order_record::put::put;
use outcome::{Refusal, Refused};

// A record of `bytes` bytes held against the limits, where a buffer of `lent` bytes is lent for it: 19, 20, at `place`.
pub fn hold_size(bytes: usize, lent: usize, place: u32) -> Result<(), Refused>
    ensures number { number_in result ≡ size_number lent bytes }
    ensures place { RefusedAt place result }
{
    if Header::MOST_BYTES < bytes {
        return Err(Refused {
            why: Refusal::TooLong,
            place,
        });
    }
    if lent < bytes {
        return Err(Refused {
            why: Refusal::NoRoom,
            place,
        });
    }
    Ok(())
}

// The order on the view that stands at `site`: it is refused with 19 or 20, at `place`, or the new record is written to `out`.
pub fn carry_out(
    bytes: &[u8],
    site: Site,
    words: &[u8],
    removal: &[u8],
    place: u32,
    out: &mut [u8],
) -> Result<usize, Refused>
    requires { Placed bytes.now site words.now removal.now }
    ensures { CarriedOut bytes.now site words.now removal.now place out.old out.new result }
{
    let sizes = measure(bytes, site, words, removal);
    hold_size(sizes.bytes, out.len(), place)?;
    let length = put(out, bytes, site, words, removal, sizes);
    Ok(length)
}
