// Whether all values of a sheet are right, and how many bytes its record takes: refusal 22 over the whole sheet. No field is cut and
// the grammar holds, so that code goes from field to field by their tags and lengths, once.
#![tactic(auto)]

ghost use Rattle.check_values.specs.Sheet.{ValuesThere, ValuesAre};

use crate::view::view_values;
use check_value::header::header_value;
use format::Header;

mod view; // a view

// How many views there are, and the bytes of the record.
#[derive(Clone, Copy)]
pub struct Valued {
    pub views: usize,
    pub bytes: usize,
}

// The values of a whole sheet: its 01, then view by view. `seen` counts the views of each position.
pub fn values(sheet: &[u8]) -> Option<Valued>
    requires { ValuesThere sheet.now }
    ensures { ValuesAre sheet.now result }
{
    let header = header_value(&sheet[3..12])?;
    let w = header.scale.widths;
    let mut seen = [0u8; 11];
    let mut p: usize = 12;
    let mut views: usize = 0;
    let mut bytes: usize = Header::BYTES;
    while p < sheet.len() {
        let view = view_values(sheet, p, w, &seen)?;
        seen[view.position] += 1;
        p = view.end;
        views += 1;
        bytes += view.bytes;
    }
    Some(Valued { views, bytes })
}
