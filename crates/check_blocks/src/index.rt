// The values of a view's index: nothing, or the width and a list for each line. The lists are judged at the width, so it comes first.
ghost use Rattle.check_blocks.specs.Run.{SomeFields};
ghost use Rattle.check_blocks.specs.Index.{IndexToCheck, IndexIs};

use crate::run::{Counted, list_values};
use check_shape::starts;
use check_value::list::width_value;

// The 04 at byte p and its 05s, if there is one. The answer is the byte behind them, and the bytes of the index block.
pub fn index_values(sheet: &[u8], p: usize) -> Option<Counted>
    requires { SomeFields (IndexToCheck sheet.now p) }
    ensures { IndexIs sheet.now p result }
{
    if !starts(sheet, p, 4) {
        return Some(Counted { next: p, size: 0 });
    }
    let from = p + 3;
    let end = p + 4;
    let w = width_value(&sheet[from..end])?;
    let lists = list_values(sheet, end, w)?;
    Some(Counted {
        next: lists.next,
        size: (8 + lists.size + 7) / 8,
    })
}
