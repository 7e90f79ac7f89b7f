// Runs of start coordinates: a run of 16-bit numbers, two bytes each, to its low bytes, and low bytes back to a run. Each call goes over
// what it is lent twice: the first time it judges, the second time it writes.
#![tactic(auto)]

ghost use Rattle.std.specs.Prelude.{◌≡◌, ◌*◌, ◌/◌, ◌≤◌, length, T};
ghost use Rattle.put_bytes.specs.Laid.{Laid};
ghost use Rattle.put_bytes.specs.HighFirst.{two, joined, numbers_in};
ghost use Rattle.outcome.specs.Outcome.{Answers, AnswersInBytes};
ghost use Rattle.outcome.specs.Why.{answer_of};
ghost use Rattle.card_runs.specs.Runs.{lent_ok, low_of, low_bytes, added_at, run_of, restored_ok, from_low_bytes};

use bits::{two_at, wide};
use outcome::{Answer, Refusal, Refused};
use put_bytes::put_two;

// Whether the bytes are whole numbers that start at most at 255, never fall, and rise by at most 255 in a step.
fn run_right(run: &[u8]) -> bool
    ensures { result ≡ lent_ok run.now }
{
    if run.len() % 2 != 0 {
        return false;
    }
    let mut last: usize = 0;
    for pair in run.chunks_exact(2) {
        let number = two_at(pair, 0);
        if number < last {
            return false;
        }
        if 255 < number - last {
            return false;
        }
        last = number;
    }
    true
}

// The low byte of each number, which is the second of its two; the answer is how many.
fn put_low(out: &mut [u8], run: &[u8]) -> usize
    requires { length run.now / 2 ≤ length out.old }
    ensures { Laid (low_of (numbers_in run.now)) out.old out.new result }
{
    let count = run.len() / 2;
    for i in 0..count {
        out[i] = run[2 * i + 1];
    }
    count
}

// A run to its low bytes, or why not.
fn lowered(run: &[u8], out: &mut [u8]) -> Result<usize, Refused>
    ensures { Answers (low_bytes run.now) out.old out.new (answer_of result) }
{
    if !run_right(run) {
        return Err(Refusal::BadRun.into());
    }
    if out.len() < run.len() / 2 {
        return Err(Refusal::NoRoom.into());
    }
    Ok(put_low(out, run))
}

// A run to its low bytes.
pub fn low_bytes(run: &[u8], out: &mut [u8]) -> Answer
    ensures { Answers (low_bytes run.now) out.old out.new result }
{
    Answer::of(lowered(run, out))
}

// What is added at the low byte x: 256 more where it is below the byte before.
fn added_at(added: usize, before: usize, x: usize) -> usize
    requires { added ≤ 65535 }
    ensures { result ≡ added_at added before x }
{
    if x < before {
        return added + 256;
    }
    added
}

// Whether no number that the low bytes come back as passes 65,535.
fn bytes_right(bytes: &[u8]) -> bool
    ensures { result ≡ restored_ok bytes.now }
{
    let mut added: usize = 0;
    let mut before: usize = 0;
    for byte in bytes {
        let x = wide(*byte);
        added = added_at(added, before, x);
        if 65535 < added + x {
            return false;
        }
        before = x;
    }
    true
}

// The numbers that the low bytes come back as, two bytes each; the answer is how many.
fn put_run(out: &mut [u8], bytes: &[u8]) -> usize
    requires { T (restored_ok bytes.now) × (2 * length bytes.now ≤ length out.old) }
    ensures { Laid (joined two (run_of bytes.now)) out.old out.new (2 * result) }
{
    let mut added: usize = 0;
    let mut before: usize = 0;
    let mut at: usize = 0;
    for byte in bytes {
        let x = wide(*byte);
        added = added_at(added, before, x);
        at += put_two(&mut out[at..], added + x);
        before = x;
    }
    bytes.len()
}

// Low bytes back to their run, or why not.
fn restored(bytes: &[u8], out: &mut [u8]) -> Result<usize, Refused>
    ensures { AnswersInBytes (from_low_bytes bytes.now) out.old out.new (answer_of result) }
{
    if !bytes_right(bytes) {
        return Err(Refusal::BadRun.into());
    }
    if out.len() / 2 < bytes.len() {
        return Err(Refusal::NoRoom.into());
    }
    Ok(put_run(out, bytes))
}

// Low bytes back to their run.
pub fn from_low_bytes(bytes: &[u8], out: &mut [u8]) -> Answer
    ensures { AnswersInBytes (from_low_bytes bytes.now) out.old out.new result }
{
    Answer::of(restored(bytes, out))
}
