// A record's listing, printed: `refused N`, or a line with length and views and one for each view.
#![tactic(auto)]

ghost use Rattle.std.specs.Prelude.{◌≤◌, ◌<◌};
ghost use Rattle.list_text.specs.Views.{ViewsToList};

use format::{Header, Widths};
use judge::judge;
use list_fingers::finger;
use list_numbers::{Listed, listed_at};
use std::io;

pub mod input; // what a program reads

pub fn text(rt: &impl Print, bytes: &[u8]) -> io::Result<()> {
    rt.write_all(bytes)
}

pub fn number(rt: &impl Print, n: usize) -> io::Result<()> {
    print!(rt; "{n}")
}

pub fn refused(rt: &impl Print, n: u32) -> io::Result<()> {
    println!(rt; "refused {n}")
}

// The line of a record.
fn record_line(rt: &impl Print, bytes: usize, views: usize) -> io::Result<()> {
    println!(rt; "record {bytes} views {views}")
}

// The first len of a name's twelve bytes.
fn front(rt: &impl Print, name: &[u8; 12], len: usize) -> io::Result<()>
    requires { len ≤ 12 }
{
    text(rt, &name[..len])
}

// The name of a finger position.
fn finger_name(rt: &impl Print, position: usize) -> io::Result<()>
    requires { position < 11 }
{
    let name = finger(position);
    front(rt, &name.text, name.len)
}

// The line of a view.
fn view_line(rt: &impl Print, v: Listed) -> io::Result<()>
    requires { v.position < 11 }
{
    text(rt, b"view ")?;
    finger_name(rt, v.position)?;
    print!(rt; " {} lines {} pairs ", v.number, v.lines)?;
    match v.pairs {
        Some(pairs) => number(rt, pairs)?,
        None => text(rt, b"-")?,
    }
    println!(rt; " segments {}", v.segments)
}

// The lines of the views of an accepted record.
fn view_lines(rt: &impl Print, bytes: &[u8], w: Widths, count: usize) -> io::Result<()>
    requires { ViewsToList w count bytes.now }
{
    let mut a: usize = Header::BYTES;
    for i in 0..count {
        let v = listed_at(bytes, a, w);
        a = v.next;
        view_line(rt, v)?;
    }
    Ok(())
}

// The listing of any bytes.
pub fn listing(rt: &impl Print, bytes: &[u8]) -> io::Result<()> {
    match judge(bytes) {
        Err(refusal) => refused(rt, refusal.why.number()),
        Ok(record) => {
            record_line(rt, bytes.len(), record.views)?;
            view_lines(rt, bytes, record.header.scale.widths, record.views)
        }
    }
}
