// The command line. A word that is missing, or longer than a path, counts as an empty one, which nothing here is called.
ghost use Rattle.std.specs.Prelude.{◌≤◌, length};

use crate::file;
use bits::sizes::LONGEST_WINDOW;
use fastarray::ChecksumMode;
use framing::Walk;
use geometry::{RotatorQuantization, VectorQuantization};
use std::env::{Env, FillError};
use tell::levels;

// What is to be made of a window.
#[derive(Clone, Copy)]
pub enum Job {
    // A walk, and the level at which a struct walk starts.
    Array(Walk, u32),
    FastArray(ChecksumMode),
    Movement(VectorQuantization, RotatorQuantization),
}

#[derive(Clone, Copy)]
pub enum Asked {
    Schema,
    Window(Job),
}

// How many bits of the file are the window.
#[derive(Clone, Copy)]
pub enum Count {
    Whole,
    First(u32),
}

// ---- the words

// The longest word, which a path may be.
const WORD: usize = 4096;

// A word of the command line, in the front of the room.
fn word_at<'a>(rt: &impl Env, at: usize, room: &'a mut [u8]) -> &'a [u8]
    ensures { length result.now ≤ length room.old }
{
    let n = rt.arg(at, room).unwrap_or(0);
    &room[..n]
}

// How many words there are, with the program's own name.
fn word_count(rt: &impl Env) -> usize {
    for at in 0..usize::MAX {
        if let Err(FillError::NotPresent) = rt.arg(at, &mut []) {
            return at;
        }
    }
    usize::MAX
}

// ---- what is asked, or none where the usage is to be said

fn walk_asked(rt: &impl Env) -> Option<Job> {
    let mut room = [0u8; WORD];
    match word_at(rt, 2, &mut room) {
        b"none" => Some(Job::Array(Walk::Struct, schema::ABSENT)),
        b"exact" => Some(Job::Array(Walk::Exact, schema::ABSENT)),
        b"objects" => Some(Job::Array(Walk::Object, schema::ABSENT)),
        name => Some(Job::Array(Walk::Struct, levels::level_of(name)?)),
    }
}

fn mode_asked(rt: &impl Env) -> Option<ChecksumMode> {
    let mut room = [0u8; WORD];
    match word_at(rt, 2, &mut room) {
        b"absent" => Some(ChecksumMode::Absent),
        b"present" => Some(ChecksumMode::Present),
        _ => None,
    }
}

fn scale_asked(rt: &impl Env) -> Option<VectorQuantization> {
    let mut room = [0u8; WORD];
    match word_at(rt, 2, &mut room) {
        b"1" => Some(VectorQuantization::RoundWholeNumber),
        b"10" => Some(VectorQuantization::RoundOneDecimal),
        b"100" => Some(VectorQuantization::RoundTwoDecimals),
        _ => None,
    }
}

fn width_asked(rt: &impl Env) -> Option<RotatorQuantization> {
    let mut room = [0u8; WORD];
    match word_at(rt, 3, &mut room) {
        b"8" => Some(RotatorQuantization::ByteComponents),
        b"16" => Some(RotatorQuantization::ShortComponents),
        _ => None,
    }
}

pub fn command(rt: &impl Env) -> Option<Asked> {
    let mut room = [0u8; WORD];
    match word_at(rt, 1, &mut room) {
        b"walk" => Some(Asked::Window(walk_asked(rt)?)),
        b"fastarray" => Some(Asked::Window(Job::FastArray(mode_asked(rt)?))),
        b"movement" => Some(Asked::Window(Job::Movement(scale_asked(rt)?, width_asked(rt)?))),
        b"schema" if word_count(rt) == 2 => Some(Asked::Schema),
        _ => None,
    }
}

// ---- FILE and BITS

// Which word FILE is, counted from the program's own name.
pub fn file_place(job: Job) -> usize
    ensures { result ≤ 4 }
{
    match job {
        Job::Array(_, _) => 3,
        Job::FastArray(_) => 3,
        Job::Movement(_, _) => 4,
    }
}

// The number of these digits. What is over 4,294,967,295 counts as that: each count over 524,288 is refused alike. std's own
// reading of a number takes a sign, and none so large.
fn counted(word: &[u8]) -> Option<u32> {
    if word.is_empty() {
        return None;
    }
    let mut value = 0u32;
    for letter in word {
        let digit = letter.checked_sub(b'0').filter(|digit| *digit < 10)?;
        value = value.saturating_mul(10).saturating_add(u32::from(digit));
    }
    Some(value)
}

// BITS, if the word of that place is the last one or the one before it is; none where it is no number, or words stand behind it.
pub fn count_at(rt: &impl Env, at: usize) -> Option<Count> {
    match word_count(rt).checked_sub(at)? {
        0 => Some(Count::Whole),
        1 => {
            let mut room = [0u8; WORD];
            Some(Count::First(counted(word_at(rt, at, &mut room))?))
        }
        _ => None,
    }
}

fn bits_of(n: usize) -> u32 {
    if file::ROOM < n {
        return LONGEST_WINDOW;
    }
    (8 * n) as u32
}

// The length of the window in a file of n bytes.
pub fn window_bits(given: Count, n: usize) -> u32 {
    match given {
        Count::Whole => bits_of(n),
        Count::First(bits) => bits,
    }
}
