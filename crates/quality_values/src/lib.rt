// A stored payload of local quality: whether it is right, and its values, a byte per cell. The number of cells is held against the
// payload's length before anything is walked.
#![tactic(auto)]

ghost use Rattle.quality_values.specs.Values.{PayloadThere, PayloadJudged, ValuesRoom, ValuesLaid};

use bits::Cursor;
use format::Image;
use put_bytes::copy;
use quality_cells::{Grid, grid_of, payload_size};

// Its cells, where the payload is right: their bits end in the last byte, and what fills it up is zero.
pub fn judge_payload(payload: &[u8], image: Image) -> Option<Grid>
    requires { PayloadThere image payload.now }
    ensures { PayloadJudged image payload.now result }
{
    let grid = grid_of(payload, image)?;
    if payload.len() != payload_size(grid) {
        return None;
    }
    let end = 24 + grid.cells * grid.bits;
    let filling = Cursor { at: end }.sure(payload, 8 * payload.len() - end);
    if filling.value != 0 {
        return None;
    }
    Some(grid)
}

// The payload's first three bytes, and a byte for the value of each cell.
pub fn put_values(out: &mut [u8], payload: &[u8], grid: Grid) -> usize
    requires { ValuesRoom payload.now grid out.old }
    ensures { ValuesLaid payload.now grid out.old out.new result }
{
    let first = copy(out, &payload[0..3]);
    let mut place = Cursor { at: 24 };
    for i in 0..grid.cells {
        let cell = place.sure(payload, grid.bits);
        out[first + i] = cell.value as u8;
        place = cell.next;
    }
    first + grid.cells
}
