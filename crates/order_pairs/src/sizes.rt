// The size of the record after some orders of a list: at most, which takes no walk along the index, and exactly.
ghost use Rattle.order_carry.specs.Carried.{number_in, RefusedAt};
ghost use Rattle.order_pairs.specs.Sizes.{MostThere, AtMost, SizeThere, SizeSeen};

use find_parts::site::Site;
use format::Header;
use order_carry::hold_size;
use order_lists::width::least_width;
use order_record::measure::measure;
use outcome::Refused;

// At most how many bytes the record has after `orders` orders about pairs of the view at `site`, which has an index. The old index
// says how many numbers it has; an order makes them at most one more; and no number passes the number of lines.
pub fn most_bytes(bytes: &[u8], site: Site, orders: usize) -> usize
    requires { MostThere bytes.now site orders }
    ensures { AtMost bytes.now site orders result }
{
    let from = site.index.from;
    let to = site.index.to;
    let old = bytes[from] as usize;
    let numbers = (8 * (to - from) - 8) / old + orders;
    let index = (8 + numbers * least_width(site.lines) + 7) / 8;
    from + index + (bytes.len() - to)
}

// The record after the orders `words`, held against 32,768 bytes and the room: 19, 20, at `place`.
pub fn hold_size_after(
    bytes: &[u8],
    site: Site,
    words: &[u8],
    lent: usize,
    place: u32,
) -> Result<(), Refused>
    requires { SizeThere bytes.now site words.now }
    ensures number { SizeSeen bytes.now site words.now lent (number_in result) }
    ensures place { RefusedAt place result }
{
    let most = most_bytes(bytes, site, words.len() / 6);
    if most <= lent && most <= Header::MOST_BYTES {
        return Ok(());
    }
    let sizes = measure(bytes, site, words, &bytes[0..0]);
    hold_size(sizes.bytes, lent, place)
}
