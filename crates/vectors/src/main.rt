// Runs the library's calls on each file that an argument names, and prints what came of it: the listing, the place of a refusal, the
// sheet's length, and for each view, named by finger position and number, the trails of its first lines, the lengths of its first
// segments, and the values of their local quality or the numbers of their pores. Of a file whose name ends in d (.card), for each size the
// record that its object makes, and whether the record's view makes the object again.
#![tactic(auto)]

use bits::four_at;
use card_reading::card_read;
use card_writing::card_write;
use format::{Header, ViewName};
use judge::judge;
use list_text::input::read_full;
use list_text::{listing, refused, text};
use outcome::Refusal;
use pores_reading::pores;
use quality_reading::quality;
use reading::read;
use segment::{payload, segment};
use std::fmt::Display;
use std::rt::Files;
use std::{env, fs, io};
use trailing::trail;

// The bytes that a sheet, a record or an object may have here.
const ROOM: usize = 65536;

// How many arguments are read.
const MOST_ARGUMENTS: usize = 999;

// The bytes that an argument may have.
const MOST_NAME_BYTES: usize = 4096;

fn sheet(rt: &impl Print, bytes: &[u8]) -> io::Result<()> {
    let mut out = [0u8; ROOM];
    let answer = read(bytes, &mut out);
    text(rt, b"sheet ")?;
    if answer.number == 0 {
        println!(rt; "{}", answer.length)
    } else {
        refused(rt, answer.number)
    }
}

// Where the record is refused.
fn refused_at(rt: &impl Print, bytes: &[u8]) -> io::Result<()> {
    let mut out = [0u8; 1];
    let answer = read(bytes, &mut out);
    println!(rt; "place {}", answer.place)
}

// How a line of its own starts: what it is of, the view's finger position and number, and the place.
fn start(rt: &impl Print, name: &str, view: ViewName, place: usize) -> io::Result<()> {
    print!(rt; "{name} {} {} {place}:", view.finger, view.number)
}

// The first `count` numbers of a trail, or values of a local quality.
fn numbers<T: Display>(rt: &impl Print, out: &[T], count: usize) -> io::Result<()> {
    for x in out.iter().take(count) {
        print!(rt; " {x}")?;
    }
    Ok(())
}

// Whether the view has that line.
fn trail_of(rt: &impl Print, bytes: &[u8], view: ViewName, line: usize) -> io::Result<bool> {
    let mut out = [0u16; 255];
    let answer = trail(bytes, view, line, &mut out);
    if answer.number != 0 {
        return Ok(false);
    }
    start(rt, "trail", view, line)?;
    numbers(rt, &out, answer.length)?;
    text(rt, b"\n")?;
    Ok(true)
}

// The values of local quality, where the segment has some.
fn quality_of(rt: &impl Print, bytes: &[u8], view: ViewName, place: usize) -> io::Result<()> {
    let mut out = [0u8; 256];
    let answer = quality(bytes, view, place, &mut out);
    if answer.number != 0 {
        return Ok(());
    }
    start(rt, "quality", view, place)?;
    numbers(rt, &out, answer.length)?;
    text(rt, b"\n")
}

// The first `count` numbers of pores, four bytes each.
fn distances(rt: &impl Print, out: &[u8], count: usize) -> io::Result<()> {
    for bytes in out.chunks_exact(4).take(count) {
        print!(rt; " {}", four_at(bytes, 0))?;
    }
    Ok(())
}

// The numbers of pores, where the segment has some.
fn pores_of(rt: &impl Print, bytes: &[u8], view: ViewName, place: usize) -> io::Result<()> {
    let mut out = [0u8; 1024];
    let answer = pores(bytes, view, place, &mut out);
    if answer.number != 0 {
        return Ok(());
    }
    start(rt, "pores", view, place)?;
    distances(rt, &out, answer.length)?;
    text(rt, b"\n")
}

// Whether the view has that segment.
fn segment_of(rt: &impl Print, bytes: &[u8], view: ViewName, place: usize) -> io::Result<bool> {
    let answer = segment(bytes, view, place);
    if answer.number != 0 {
        return Ok(false);
    }
    start(rt, "segment", view, place)?;
    let part = payload(bytes, view, place);
    println!(rt; " {} bytes", part.len())?;
    quality_of(rt, bytes, view, place)?;
    pores_of(rt, bytes, view, place)?;
    Ok(true)
}

// The view's first lines.
fn trails_of(rt: &impl Print, bytes: &[u8], view: ViewName) -> io::Result<()> {
    for line in 0..8 {
        if !trail_of(rt, bytes, view, line)? {
            break;
        }
    }
    Ok(())
}

// The view's first segments.
fn segments_of(rt: &impl Print, bytes: &[u8], view: ViewName) -> io::Result<()> {
    for place in 0..8 {
        if !segment_of(rt, bytes, view, place)? {
            break;
        }
    }
    Ok(())
}

// Whether there is such a view.
fn parts_of(rt: &impl Print, bytes: &[u8], view: ViewName) -> io::Result<bool> {
    let first = segment(bytes, view, 0);
    if first.number == Refusal::NoView.number() {
        return Ok(false);
    }
    trails_of(rt, bytes, view)?;
    segments_of(rt, bytes, view)?;
    Ok(true)
}

// The views of a finger, by their numbers.
fn views_of(rt: &impl Print, bytes: &[u8], finger: u32) -> io::Result<()> {
    for number in 0..255 {
        if !parts_of(rt, bytes, ViewName { finger, number })? {
            break;
        }
    }
    Ok(())
}

fn of_record(rt: &impl Print, bytes: &[u8]) -> io::Result<()> {
    listing(rt, bytes)?;
    if judge(bytes).is_err() {
        return refused_at(rt, bytes);
    }
    sheet(rt, bytes)?;
    for finger in 0..11 {
        views_of(rt, bytes, finger)?;
    }
    Ok(())
}

// What the record's view makes at that size: how many bytes, and whether they are the object's.
fn back(rt: &impl Print, size: u32, bytes: &[u8], object: &[u8]) -> io::Result<()> {
    let mut out = [0u8; ROOM];
    let unnamed = ViewName {
        finger: 0,
        number: 0,
    };
    let answer = card_write(size, bytes, unnamed, &mut out);
    let word = if is_start(object, &out, answer.length) {
        "the same"
    } else {
        "another"
    };
    println!(rt; "object {} bytes, {word}", answer.length)
}

// Whether the object has `length` bytes, which `out` starts with.
fn is_start(object: &[u8], out: &[u8], length: usize) -> bool {
    object.len() == length && out.starts_with(object)
}

// The record in the first `length` bytes of `out`, and what it makes.
fn shown(rt: &impl Print, size: u32, out: &[u8], length: usize, object: &[u8]) -> io::Result<()> {
    let Some(bytes) = out.get(..length) else {
        return Ok(());
    };
    listing(rt, bytes)?;
    back(rt, size, bytes, object)
}

// A card's object, read at that size.
fn of_object(rt: &impl Print, size: u32, object: &[u8]) -> io::Result<()> {
    let mut out = [0u8; ROOM];
    let answer = card_read(size, object, &mut out);
    println!(rt; "card {size}")?;
    if answer.number != 0 {
        refused(rt, answer.number)?;
        return println!(rt; "place {}", answer.place);
    }
    shown(rt, size, &out, answer.length, object)
}

// Whether the name is that of a card's object: it ends in d.
fn is_card(path: &str) -> bool {
    path.ends_with("d")
}

// One byte more than a record may have is read, so that a longer one is refused.
fn of_file<R: Print + Eprint + Files>(rt: &R, path: &str) -> io::Result<()> {
    let mut file = match fs::open(rt, path) {
        Ok(file) => file,
        Err(e) => return eprintln!(rt; "{path}: {e}"),
    };
    let mut buffer = [0u8; Header::MOST_BYTES + 1];
    let n = read_full(&mut file, &mut buffer)?;
    println!(rt; "{path}")?;
    let bytes = &buffer[..n];
    if is_card(path) {
        of_object(rt, 0, bytes)?;
        of_object(rt, 1, bytes)
    } else {
        of_record(rt, bytes)
    }
}

// An argument that is empty or too long is the last.
fn main(rt: HostRuntime) -> io::Result<()> {
    for path in env::args(&rt)?.skip(1).take(MOST_ARGUMENTS) {
        if path.is_empty() || MOST_NAME_BYTES < path.len() {
            break;
        }
        of_file(&rt, path.as_str())?;
    }
    Ok(())
}
