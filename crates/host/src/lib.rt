// The calls that a host written in C links. Each is a call of the library under its C name; host/fsk.h explains them.
#![tactic(auto)]

ghost use Rattle.std.specs.Prelude.{◌≡◌, true, false};
ghost use Rattle.outcome.specs.Outcome.{Answers, AnswersInBytes, AnswersInFours};
ghost use Rattle.format.specs.Named.{named};
ghost use Rattle.sheet.specs.Sheet.{reading, writing};
ghost use Rattle.trail.specs.Trail.{trailing};
ghost use Rattle.segment.specs.Segment.{segment_answer};
ghost use Rattle.quality.specs.Quality.{quality, set_quality};
ghost use Rattle.pores.specs.Calls.{pores, set_pores};
ghost use Rattle.orders.specs.Order.{order};
ghost use Rattle.order_holds.specs.Held.{held};
ghost use Rattle.orders.specs.Called.{removal_order, pair_order};
ghost use Rattle.orders.specs.Pairs.{pairs_call, pairs};
ghost use Rattle.card.specs.Card.{card_read, card_write};
ghost use Rattle.card_runs.specs.Runs.{low_bytes, from_low_bytes};
ghost use Rattle.rule.specs.Check.{check_answer};

use card_reading::card_read;
use card_runs::{from_low_bytes, low_bytes};
use card_writing::card_write;
use format::ViewName;
use order_holds::{Held, which_holds};
use ordering::{join, pairs, part, remove};
use outcome::Answer;
use pores_reading::pores;
use pores_setting::set_pores;
use quality_reading::quality;
use quality_setting::set_quality;
use reading::read;
use rule_checking::check;
use segment::segment;
use trailing::trail_as_bytes;
use writing::write;

#[unsafe(no_mangle)]
pub extern "C" fn fsk_read(bytes: &[u8], sheet: &mut [u8]) -> Answer
    ensures { Answers (reading bytes.now) sheet.old sheet.new result }
{
    read(bytes, sheet)
}

#[unsafe(no_mangle)]
pub extern "C" fn fsk_write(sheet: &[u8], bytes: &mut [u8]) -> Answer
    ensures { Answers (writing sheet.now) bytes.old bytes.new result }
{
    write(sheet, bytes)
}

#[unsafe(no_mangle)]
pub extern "C" fn fsk_trail(
    bytes: &[u8],
    finger: u32,
    number: u32,
    line: u32,
    out: &mut [u8],
) -> Answer
    ensures { AnswersInBytes (trailing (named finger number) line bytes.now) out.old out.new result }
{
    trail_as_bytes(bytes, ViewName { finger, number }, line as usize, out)
}

#[unsafe(no_mangle)]
pub extern "C" fn fsk_segment(bytes: &[u8], finger: u32, number: u32, place: u32) -> Answer
    ensures { result ≡ segment_answer (named finger number) place bytes.now }
{
    segment(bytes, ViewName { finger, number }, place as usize)
}

#[unsafe(no_mangle)]
pub extern "C" fn fsk_quality(
    bytes: &[u8],
    finger: u32,
    number: u32,
    place: u32,
    values: &mut [u8],
) -> Answer
    ensures { Answers (quality (named finger number) place bytes.now) values.old values.new result }
{
    quality(bytes, ViewName { finger, number }, place as usize, values)
}

#[unsafe(no_mangle)]
pub extern "C" fn fsk_set_quality(
    bytes: &[u8],
    finger: u32,
    number: u32,
    place: u32,
    values: &[u8],
    out: &mut [u8],
) -> Answer
    ensures { Answers (set_quality (named finger number) place values.now bytes.now) out.old out.new result }
{
    set_quality(
        bytes,
        ViewName { finger, number },
        place as usize,
        values,
        out,
    )
}

#[unsafe(no_mangle)]
pub extern "C" fn fsk_pores(
    bytes: &[u8],
    finger: u32,
    number: u32,
    place: u32,
    values: &mut [u8],
) -> Answer
    ensures { AnswersInFours (pores (named finger number) place bytes.now) values.old values.new result }
{
    pores(bytes, ViewName { finger, number }, place as usize, values)
}

#[unsafe(no_mangle)]
pub extern "C" fn fsk_set_pores(
    bytes: &[u8],
    finger: u32,
    number: u32,
    place: u32,
    values: &[u8],
    out: &mut [u8],
) -> Answer
    ensures { Answers (set_pores (named finger number) place values.now bytes.now) out.old out.new result }
{
    set_pores(
        bytes,
        ViewName { finger, number },
        place as usize,
        values,
        out,
    )
}

#[unsafe(no_mangle)]
pub extern "C" fn fsk_remove(
    bytes: &[u8],
    finger: u32,
    number: u32,
    count: u32,
    lines: &[u8],
    out: &mut [u8],
) -> Answer
    ensures { Answers (order (removal_order (named finger number) count lines.now) bytes.now) out.old out.new result }
{
    remove(
        bytes,
        ViewName { finger, number },
        count as usize,
        lines,
        out,
    )
}

#[unsafe(no_mangle)]
pub extern "C" fn fsk_join(
    bytes: &[u8],
    finger: u32,
    number: u32,
    count: u32,
    a: u32,
    b: u32,
    out: &mut [u8],
) -> Answer
    ensures { Answers (order (pair_order (named finger number) count a b true) bytes.now) out.old out.new result }
{
    join(
        bytes,
        ViewName { finger, number },
        count as usize,
        a as usize,
        b as usize,
        out,
    )
}

#[unsafe(no_mangle)]
pub extern "C" fn fsk_part(
    bytes: &[u8],
    finger: u32,
    number: u32,
    count: u32,
    a: u32,
    b: u32,
    out: &mut [u8],
) -> Answer
    ensures { Answers (order (pair_order (named finger number) count a b false) bytes.now) out.old out.new result }
{
    part(
        bytes,
        ViewName { finger, number },
        count as usize,
        a as usize,
        b as usize,
        out,
    )
}

#[unsafe(no_mangle)]
pub extern "C" fn fsk_pairs(
    bytes: &[u8],
    finger: u32,
    number: u32,
    count: u32,
    list: &[u8],
    out: &mut [u8],
) -> Answer
    ensures { Answers (pairs (pairs_call (named finger number) count list.now out.old) bytes.now) out.old out.new result }
{
    pairs(
        bytes,
        ViewName { finger, number },
        count as usize,
        list,
        out,
    )
}

#[unsafe(no_mangle)]
pub extern "C" fn fsk_holds(old: &[u8], second: &[u8], number: u32, length: usize) -> Held
    ensures { result ≡ held old.now second.now number length }
{
    which_holds(old, second, number, length)
}

#[unsafe(no_mangle)]
pub extern "C" fn fsk_card_read(size: u32, object: &[u8], out: &mut [u8]) -> Answer
    ensures { Answers (card_read size object.now) out.old out.new result }
{
    card_read(size, object, out)
}

#[unsafe(no_mangle)]
pub extern "C" fn fsk_card_write(
    size: u32,
    bytes: &[u8],
    finger: u32,
    number: u32,
    out: &mut [u8],
) -> Answer
    ensures { Answers (card_write size (named finger number) bytes.now) out.old out.new result }
{
    card_write(size, bytes, ViewName { finger, number }, out)
}

#[unsafe(no_mangle)]
pub extern "C" fn fsk_low_bytes(run: &[u8], out: &mut [u8]) -> Answer
    ensures { Answers (low_bytes run.now) out.old out.new result }
{
    low_bytes(run, out)
}

#[unsafe(no_mangle)]
pub extern "C" fn fsk_from_low_bytes(bytes: &[u8], out: &mut [u8]) -> Answer
    ensures { AnswersInBytes (from_low_bytes bytes.now) out.old out.new result }
{
    from_low_bytes(bytes, out)
}

#[unsafe(no_mangle)]
pub extern "C" fn fsk_check(rule: u32, bytes: &[u8]) -> Answer
    ensures { result ≡ check_answer rule bytes.now }
{
    check(rule, bytes)
}
