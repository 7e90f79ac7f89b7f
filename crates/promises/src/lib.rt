// What the library promises. The samples of document 01 are in specs/, the promises and their proofs in proofs/. The functions here
// make calls one behind the other, as demands 2 and 3 have them, so that it is proved of what runs.
#![tactic(auto)]

ghost use Rattle.orders.specs.Called.{removal_order};
ghost use Rattle.promises.specs.Calls.{RecordBack, SheetBack, OnlyOnce};

use format::ViewName;
use order_holds::now_holds;
use ordering::remove;
use outcome::Answer;
use reading::read;
use writing::write;

// Reads the record, and writes the sheet that this gave.
pub fn read_then_write(bytes: &[u8], sheet: &mut [u8], again: &mut [u8]) -> Answer
    ensures { RecordBack bytes.now sheet.old again.old again.new result }
{
    let first = read(bytes, sheet);
    if first.number != 0 {
        return first;
    }
    let length = first.length;
    write(&sheet[0..length], again)
}

// Writes the sheet, and reads the record that this gave.
pub fn write_then_read(sheet: &[u8], bytes: &mut [u8], again: &mut [u8]) -> Answer
    ensures { SheetBack sheet.now bytes.old again.old again.new result }
{
    let first = write(sheet, bytes);
    if first.number != 0 {
        return first;
    }
    let length = first.length;
    read(&bytes[0..length], again)
}

// The repeated hour: a removal, the record that then holds, and the same removal on it.
pub fn remove_twice(
    bytes: &[u8],
    view: ViewName,
    count: usize,
    lines: &[u8],
    second: &mut [u8],
    third: &mut [u8],
) -> Answer
    ensures { OnlyOnce (removal_order view count lines.now) bytes.now second.old third.old third.new result }
{
    let first = remove(bytes, view, count, lines, second);
    let record = now_holds(bytes, second, first.number, first.length);
    remove(record, view, count, lines, third)
}
