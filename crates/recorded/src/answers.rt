// Answers of a read, ours and the recorded one, and what comes of a case.
ghost use Rattle.std.specs.Prelude.{◌≡◌, ◌%◌, ◌^◌};
ghost use Rattle.bits.specs.Refusals.{refusal};
ghost use Rattle.bitio.specs.Refusals.{numbered, stands_after_lem};
ghost use Rattle.recorded.specs.Says.{Says};

use crate::fields::Parts;
use crate::say;
use bitio::Refusal;
use bitio::said::{Saying, said, stands_after};
use std::{fmt, io};
use words::input::Unread;

// Document 01's number for outputs that are too short: what a call has to answer that is lent less than the recorded one fills.
pub const SHORT: u64 = 3;

#[derive(Clone, Copy, PartialEq, Eq)]
pub struct Answer {
    pub number: u64,
    pub first: u64,
    pub second: u64,
    pub third: u64,
    pub cursor: u64,
}

// Why a case can't be replayed.
#[derive(Clone, Copy)]
pub enum Fault {
    // A read of the file fails, and why.
    Unread(io::Error),
    // The file's length is not what was read.
    Changed,
    // The file ends inside the case.
    Cut,
    // The case is larger than the part of the file that is held at once.
    Large,
    Kind,
    // The parts of the case don't fill it exactly.
    Layout,
    // A number that the kind doesn't take.
    Number,
    // A list of u32 with more than the kind takes.
    List,
}

impl From<io::Error> for Fault {
    fn from(why: io::Error) -> Fault {
        Fault::Unread(why)
    }
}

impl From<Unread> for Fault {
    fn from(why: Unread) -> Fault {
        match why {
            Unread::Failed(why) => Fault::Unread(why),
            Unread::Longer | Unread::Changed => Fault::Changed,
        }
    }
}

#[derive(Clone, Copy, PartialEq, Eq)]
pub enum Outcome {
    Same,
    // The line that says so is printed.
    Differs,
}

// The outcome of a case whose difference, if there is one, is printed.
pub fn outcome_of(same: bool) -> Outcome {
    if same {
        Outcome::Same
    } else {
        Outcome::Differs
    }
}

// Why a replay ends before the file does.
#[derive(Clone, Copy)]
pub enum Stop {
    Faulty(Fault),
    // A write of an answer failed.
    Unwritten(io::Error),
}

impl From<Fault> for Stop {
    fn from(fault: Fault) -> Stop {
        Stop::Faulty(fault)
    }
}

impl From<io::Error> for Stop {
    fn from(why: io::Error) -> Stop {
        Stop::Unwritten(why)
    }
}

pub fn answer_of(number: u64, first: u64, second: u64, third: u64, cursor: u64) -> Answer
    ensures says { Says result (refusal number first second third) }
    ensures stands { result.cursor ≡ cursor }
{
    Answer {
        number,
        first,
        second,
        third,
        cursor,
    }
}

pub fn accepted(value: u64, cursor: u64) -> Answer {
    answer_of(0, value, 0, 0, cursor)
}

// What a refusal says, with the cursor at a place.
pub fn told(s: Saying, cursor: u64) -> Answer
    ensures says { Says result (refusal s.number s.first s.second s.third) }
    ensures stands { result.cursor ≡ cursor }
{
    answer_of(u64::from(s.number), s.first, s.second, s.third, cursor)
}

// What a refusal says, and where the cursor that stood at `at` stands after it (bitio's specs/Refusals).
pub fn refused(why: Refusal, at: u64) -> Answer
    ensures says { Says result (numbered why) }
    ensures stands { result.cursor ≡ stands_after_lem at why % 2 ^ 64 }
{
    let s = said(why);
    let cursor = stands_after(why, at);
    told(s, cursor)
}

pub fn recorded(parts: &mut Parts<'_>) -> Result<Answer, Fault> {
    let [number, first, second, third, cursor] = parts.numbers::<5>()?;
    Ok(answer_of(number, first, second, third, cursor))
}

impl fmt::Display for Answer {
    fn fmt<W: fmt::Write>(&self, f: &mut fmt::Formatter<W>) -> fmt::Result {
        let Answer {
            number,
            first,
            second,
            third,
            cursor,
        } = *self;
        if number == 0 {
            write!(f, "accepted {first} at bit {cursor}")
        } else {
            write!(
                f,
                "refusal {number} with {first} {second} {third} at bit {cursor}"
            )
        }
    }
}

// Whether ours is the recorded answer; the line that says otherwise is printed.
pub fn judge(out: &impl Print, id: &[u8], expected: Answer, got: Answer) -> io::Result<Outcome> {
    if expected == got {
        return Ok(Outcome::Same);
    }
    say::case(out, id)?;
    println!(out; "{expected}, got {got}")?;
    Ok(Outcome::Differs)
}
