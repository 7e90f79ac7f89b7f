// The cells of local quality: how many a view's image has and how many bits each takes, by the first three bytes of a payload or of
// values. The number of cells can pass four thousand million; nothing is walked here.
#![tactic(auto)]

ghost use Rattle.std.specs.Prelude.{◌≡◌, ◌+◌, ◌*◌, ◌/◌, ◌≤◌, ◌<◌};
ghost use Rattle.quality_cells.specs.Grid.{SmallImage, GridFound};

use bits::wide;
use format::Image;

#[derive(Clone, Copy)]
pub struct Grid {
    pub cells: usize,
    pub bits: usize,
}

// The cells of the image, by the first three bytes; none, where no right values start so.
pub fn grid_of(bytes: &[u8], image: Image) -> Option<Grid>
    requires { SmallImage image }
    ensures { GridFound image bytes.now result }
{
    let [width, height, bits, ..] = bytes else {
        return None;
    };
    let width = wide(*width);
    let height = wide(*height);
    let bits = wide(*bits);
    if width == 0 || height == 0 || bits == 0 || 8 < bits {
        return None;
    }
    Some(Grid {
        cells: image.width.div_ceil(width) * image.height.div_ceil(height),
        bits,
    })
}

// How many bytes the payload has: the first three, and the cells' bits up to a whole byte.
pub fn payload_size(grid: Grid) -> usize
    requires { (grid.cells ≤ 65535 * 65535) × (grid.bits ≤ 8) }
    ensures { result ≡ 3 + (grid.cells * grid.bits + 7) / 8 }
{
    3 + (grid.cells * grid.bits + 7) / 8
}
