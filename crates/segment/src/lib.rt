// A segment, asked for by its view and its place there: its number, where its payload stands and its length come from one call, the
// payload's part of the record from another. Both find the segment first, so that any bytes may be asked.
#![tactic(auto)]

ghost use Rattle.std.specs.Prelude.{◌≡◌};
ghost use Rattle.segment.specs.Segment.{payload, payload_of, segment_answer};

use find_segment::find_segment;
use format::ViewName;
use outcome::Answer;

// The segment's number, the first bit of its payload, and the payload's bytes.
pub fn segment(bytes: &[u8], view: ViewName, place: usize) -> Answer
    ensures { result ≡ segment_answer view place bytes.now }
{
    match find_segment(bytes, view, place) {
        Err(refused) => Answer::of(Err(refused)),
        Ok(spot) => Answer {
            number: 0,
            place: (8 * spot.payload.from) as u32,
            length: spot.payload.to - spot.payload.from,
        },
    }
}

// The payload itself, a part of the record; empty if refused.
pub fn payload<'a>(bytes: &'a [u8], view: ViewName, place: usize) -> &'a [u8]
    ensures { result.now ≡ payload_of (payload view place bytes.now) }
{
    let Ok(spot) = find_segment(bytes, view, place) else {
        return &bytes[0..0];
    };
    let from = spot.payload.from;
    let to = spot.payload.to;
    &bytes[from..to]
}
