// Views and their blocks: from length to length.
ghost use Rattle.std.specs.Prelude.{◌≡◌, ◌+◌, ◌≤◌, length, get_or};
ghost use Rattle.format.specs.Named.{named, same_name};
ghost use Rattle.find_parts.specs.Finds.{BlockFound, BlocksThere, BlocksFound, ViewsThere, NameFound};

use bits::Cursor;
use format::{Header, Part, ViewName};

// The blocks of a view, each behind its length: the index's length stands behind the skeleton block, the extended length behind the
// index block.
#[derive(Clone, Copy)]
pub struct Blocks {
    pub skeleton: Part,
    pub index: Part,
    pub extended: Part,
}

// The block whose length is at byte b.
fn block_at(bytes: &[u8], b: usize) -> Part
    requires { (length bytes.now ≤ 32768) × (b + 2 ≤ length bytes.now) }
    ensures { BlockFound bytes.now b result }
{
    let size = Cursor { at: 8 * b }.sure(bytes, 16);
    let from = b + 2;
    Part {
        from,
        to: from + size.value,
    }
}

// The blocks of a view; the length of the first is at byte b.
pub fn blocks_at(bytes: &[u8], b: usize) -> Blocks
    requires { BlocksThere bytes.now b }
    ensures { BlocksFound bytes.now b result }
{
    let skeleton = block_at(bytes, b);
    let index = block_at(bytes, skeleton.to);
    let extended = block_at(bytes, index.to);
    Blocks {
        skeleton,
        index,
        extended,
    }
}

// Whether the view at byte a has the name: its header starts with its number and its finger position.
fn has_name(bytes: &[u8], a: usize, view: ViewName) -> bool
    requires { a + 2 ≤ length bytes.now }
    ensures { result ≡ same_name (named (get_or bytes.now (a + 1) 0) (get_or bytes.now a 0)) view }
{
    bytes[a + 1] as u32 == view.finger && bytes[a] as u32 == view.number
}

// The byte at which the view of that name starts, if the record has one. From header to header.
pub fn view_named(bytes: &[u8], view: ViewName) -> Option<usize>
    requires { ViewsThere bytes.now }
    ensures { NameFound bytes.now view result }
{
    let mut a: usize = Header::BYTES;
    while a < bytes.len() {
        if has_name(bytes, a, view) {
            return Some(a);
        }
        let blocks = blocks_at(bytes, a + 8);
        a = blocks.extended.to;
    }
    None
}
