// The judge of a record: refused, by its number and place; or accepted, with what every call needs of it.
#![tactic(auto)]

ghost use Rattle.judge.specs.Judge.{Finds, Judges};

use format::Header;
use judge_heads::header::header_at;
use judge_views::judge_views;
use outcome::{Fault, Refusal, Refused};

// An accepted record's header, how many views it has, and the bytes of its sheet.
#[derive(Clone, Copy)]
pub struct Accepted {
    pub header: Header,
    pub views: usize,
    pub size: usize,
}

pub fn judge(bytes: &[u8]) -> Result<Accepted, Refused>
    ensures { Judges bytes.now result }
{
    match found(bytes) {
        Ok(accepted) => Ok(accepted),
        Err(fault) => Err(fault.refused()),
    }
}

// The same, with the place of a refusal as the readers count it.
fn found(bytes: &[u8]) -> Result<Accepted, Fault>
    ensures { Finds bytes.now result }
{
    if bytes.len() < Header::LEAST_BYTES || Header::MOST_BYTES < bytes.len() {
        return Err(Refusal::BadSize.at(0));
    }
    let (header, views) = header_at(bytes)?;
    let reached = judge_views(bytes, header.scale.widths, views)?;
    if reached.next < bytes.len() {
        return Err(Refusal::BytesOver.at(8 * reached.next));
    }
    Ok(Accepted {
        header,
        views,
        size: 12 + reached.size,
    })
}
