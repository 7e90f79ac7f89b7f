// The fields of a sheet, one behind the other: whether each is whole, and what each starts with.
#![tactic(auto)]

ghost use Rattle.check_fields.specs.Fields.{Whole};

use bits::two_at;

// Whether the sheet is made of whole fields: none is cut.
pub fn whole(sheet: &[u8]) -> bool
    ensures { Whole sheet.now result }
{
    let mut p: usize = 0;
    while p < sheet.len() {
        if sheet.len() - p < 3 {
            return false;
        }
        let size = two_at(sheet, p + 1);
        if sheet.len() - p - 3 < size {
            return false;
        }
        p += 3 + size;
    }
    true
}
