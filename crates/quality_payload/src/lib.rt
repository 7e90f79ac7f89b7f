// Values of local quality, a byte per cell: whether they are right, and the payload that they make.
#![tactic(auto)]

ghost use Rattle.quality_cells.specs.Grid.{SmallImage};
ghost use Rattle.quality_payload.specs.Payload.{ValuesJudged, PayloadRoom, PayloadLaid};

use bits::{pow2, wide};
use format::Image;
use put_bits::put_bits;
use quality_cells::{Grid, grid_of};

// Its cells, where the values are right: there is a value for each cell, and each fits the bits of a cell.
pub fn judge_values(values: &[u8], image: Image) -> Option<Grid>
    requires { SmallImage image }
    ensures { ValuesJudged image values.now result }
{
    let grid = grid_of(values, image)?;
    let cells = &values[3..];
    if cells.len() != grid.cells {
        return None;
    }
    let limit = pow2(grid.bits);
    if cells.iter().all(|x| wide(*x) < limit) {
        Some(grid)
    } else {
        None
    }
}

// The payload; the answer is how many bytes it has.
pub fn put_payload(out: &mut [u8], values: &[u8], grid: Grid) -> usize
    requires { PayloadRoom values.now grid out.old }
    ensures { PayloadLaid values.now grid out.old out.new result }
{
    let mut at = put_bits(out, 0, wide(values[0]), 8);
    at = put_bits(out, at, wide(values[1]), 8);
    at = put_bits(out, at, wide(values[2]), 8);
    for x in &values[3..] {
        at = put_bits(out, at, wide(*x), grid.bits);
    }
    (at + 7) / 8
}
