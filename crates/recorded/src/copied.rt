// Kind C: a copy of bits to a target.
use crate::answers::{Answer, Fault, Outcome, Stop};
use crate::fields::Case;
use crate::windows::Window;
use crate::{answers, patterns, say};
use bitio::Cursor;
use std::io;
use words::Hex;

fn copy(bytes: &[u8], c: Cursor, count: u64, target: &mut [u8]) -> Answer {
    let copy = bitio::copy_bits_to(bytes, c, count, target);
    match copy {
        Ok(next) => answers::accepted(0, next),
        Err(r) => answers::refused(r, c.pos),
    }
}

fn judge(
    out: &impl Print,
    id: &[u8],
    expected: Answer,
    after: &[u8],
    got: Answer,
    target: &[u8],
) -> io::Result<Outcome> {
    if expected == got && after == target {
        return Ok(Outcome::Same);
    }
    let wanted = Hex(after);
    let found = Hex(target);
    say::case(out, id)?;
    println!(out; "{expected} target {wanted}, got {got} target {found}")?;
    Ok(Outcome::Differs)
}

// The case, with the front of `space` as the target.
pub fn replay(out: &impl Print, case: Case<'_>, space: &mut [u8]) -> Result<Outcome, Stop> {
    let mut parts = case.parts;
    let count = parts.number()?;
    let room = parts.number()?;
    let window = Window::of(&mut parts)?;
    let expected = answers::recorded(&mut parts)?;
    let after = parts.rest();
    if after.len() as u64 != room {
        return Err(Stop::Faulty(Fault::Layout));
    }
    if space.len() < after.len() {
        return Err(Stop::Faulty(Fault::Number));
    }
    let target = &mut space[..after.len()];
    patterns::fill(target);
    let got = window.answer(|bytes, c| copy(bytes, c, count, target));
    Ok(judge(out, case.id, expected, after, got, target)?)
}
