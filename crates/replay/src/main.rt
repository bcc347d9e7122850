// Replays recorded cases: `replay FILE` computes the answer of each case with our crates, prints a line for each one that
// differs from the expected answer, and last how many cases there were and how many differ.
//
// The file. Every number is u64, the low byte first, where nothing else is said.
//
//     file   = "VRFCASE4" case*
//     case   = size (u32: the bytes of what follows) kind (u8: a letter) length (u8) id (length bytes) fields
//     run    = count, count bytes
//     list   = a run of u32: of rows at most 2,600 of them, of declared names at most 2,100
//     window = skip, bits, run: the first `bits` bits of the bytes, read at bit `skip`
//     answer = number, first, second, third, cursor
//
//     kind   fields                                           what is read
//     P      window answer                                    a packed number
//     I      maximum window answer                            a serialized integer (maximum is below 2^32)
//     G      count window answer                              `count` bits as one number
//     C      count room window answer target (room bytes)     a copy of `count` bits to a target of `room` bytes
//     L      levels root list run list run number             schema and declared tables: level count and root (below 2^32);
//                                                             the rows and their name pool; the declared numbers and theirs
//     V      scale window answer                              a quantized vector (scale is below 2^32)
//     N      window answer                                    a fixed normal
//     R      width window answer                              a rotation (width is below 2^32)
//     M      scale width bits run answer record               a movement in the first `bits` bits (record: movement.rt)
//     F      mode bits run answer padded lists                a fast-array body (mode 0: no checksum flag, 1: a flag)
//     S      twelve levels root tables bits run walk          a struct walk (twelve 1: by the twelve levels; no rows then)
//     X      list run bits run walk                           an exact struct walk (the list and run: declared names)
//     O      bits run number counts pairs list                an object walk
//
// An answer's number is 0 for an accepted read, whose first value is what was read (of a copy or a movement 0; of V, N and
// R the three values are the bit patterns of the three floats; of P the second is the bytes that the number took, and the
// third 1 if it is padded), or a refusal's number by document 01, with the values of its table in its order; values that it
// doesn't name are 0. The cursor is the one after the read, in the window; 0 where no window was opened. A target holds 0xEE
// in each byte before the copy. A window of more than 524,288 bits is refused by document 01 and read by the Rust, so a case
// with one and the Rust's answer differs.
//
// Tables are accepted (number 0) or refused (number 2). The Rust has no such tables: what is expected of them is derived
// from document 01's layout by hand. So are refused walks, and the verdict on a struct or exact walk of no bits, which the Rust
// calls clean.
//
// Of a fast-array body the answer's values are the deletes, items and fields, and its cursor the bits used; padded is how many
// padded numbers were read, 0 where it is refused; the lists are, in u32, the two keys, the deleted ids, the items and the
// fields, and none where it is refused. What is recorded of a walk (tables, walk, counts) the crate `walked` says. Mode, twelve
// and whole are 0 or 1; another number there is a fault of the case.
//
// Each output of a walk or a fast-array body holds a pattern before the call, and is lent exactly as large as needed, then a
// bit longer; a further call for each output that needs something lacks one number or byte there, and has to give 3 with the
// needs and to write nothing. Where the outputs are larger than the rooms here, the call is lent nothing, and has to give 3
// with the needs.
//
// A difference is one line with both answers. At a case that breaks these rules, or can't be read, the replay stops, says on
// standard error which case it is, counted from 1, and prints no count.
//
// A further kind is a row above, a file with `replay(out, case, ..)`, lent what outputs it has, and a line in `replay_case`.
#![tactic(auto)]

mod fast;
mod geometric;
mod movement;
mod normal;
mod rotation;
mod source;
mod tables;
mod vector;

use bits::sizes::LONGEST_WINDOW;
use framing::Walk;
use outputs::records::LEAF_WORDS;
use recorded::answers::{Fault, Outcome, Stop};
use recorded::fields::Case;
use recorded::{copied, fixed, packed, say, serialized};
use std::env::Env;
use std::io;
use std::io::{Read, Seek};
use std::rt::Files;
use walked::trials;
use words::{Gathered, input};

// How far the replay has come.
#[derive(Clone, Copy)]
struct Count {
    // The bytes of the file that were read.
    read: u64,
    cases: u64,
    differ: u64,
}

impl Count {
    // Behind the magic.
    const START: Count = Count {
        read: 8,
        cases: 0,
        differ: 0,
    };

    // Behind one more case, of so many bytes.
    fn after(self, size: usize, outcome: Outcome) -> Count {
        Count {
            read: self.read.wrapping_add(4).wrapping_add(size as u64),
            cases: self.cases.wrapping_add(1),
            differ: match outcome {
                Outcome::Same => self.differ,
                Outcome::Differs => self.differ.wrapping_add(1),
            },
        }
    }
}

const MOST_LEAVES: usize = (LONGEST_WINDOW as usize) / 16;

const NUMBER_ROOM: usize = LEAF_WORDS * MOST_LEAVES + 7;

// Outputs, made once and lent to each case: numbers of 32,768 leaves, path bytes, payload bytes, and seven more of each
// (recorded::rooms). A copy's target is lent of the path bytes, a fast array's fields of the numbers.
#[derive(Drop)]
struct Rooms {
    numbers: [u32; NUMBER_ROOM],
    paths: [u8; 262151],
    payloads: [u8; 65543],
}

// One case, without its size. Each letter stands here alone: an enum of the kinds would name it once more.
fn replay_case(out: &impl Print, s: &[u8], rooms: &mut Rooms) -> Result<Outcome, Stop> {
    let case = Case::of(s)?;
    let numbers: &mut [u32] = &mut rooms.numbers;
    let paths: &mut [u8] = &mut rooms.paths;
    let payloads: &mut [u8] = &mut rooms.payloads;
    match case.kind {
        b'P' => packed::replay(out, case),
        b'I' => serialized::replay(out, case),
        b'G' => fixed::replay(out, case),
        b'C' => copied::replay(out, case, paths),
        b'L' => tables::replay(out, case),
        b'V' => vector::replay(out, case),
        b'N' => normal::replay(out, case),
        b'R' => rotation::replay(out, case),
        b'M' => movement::replay(out, case),
        b'F' => fast::replay(out, case, numbers),
        b'S' => trials::replay(out, Walk::Struct, case, numbers, paths, payloads),
        b'X' => trials::replay(out, Walk::Exact, case, numbers, paths, payloads),
        b'O' => trials::replay(out, Walk::Object, case, numbers, paths, payloads),
        _ => Err(Stop::Faulty(Fault::Kind)),
    }
}

// All cases behind the magic. Nothing says that a file ends, so the loop counts its turns down, from a number that no run uses
// up.
fn replay_all(
    out: &impl Print,
    file: &mut (impl Read + Seek),
    count: &mut Count,
) -> Result<(), Stop> {
    let mut space = [0u8; source::ROOM];
    let mut rooms = Rooms {
        numbers: [0; NUMBER_ROOM],
        paths: [0; 262151],
        payloads: [0; 65543],
    };
    for _ in 0..u64::MAX {
        let Some(case) = source::take(file, count.read, &mut space)? else {
            return Ok(());
        };
        let outcome = replay_case(out, case, &mut rooms)?;
        *count = count.after(case.len(), outcome);
    }
    Err(Stop::Faulty(Fault::Changed))
}

// The replay of the cases, and the count, or why there is none.
fn replay_file(
    out: &impl Print,
    err: &impl Print,
    file: &mut (impl Read + Seek),
) -> io::Result<()> {
    let mut count = Count::START;
    let ended = replay_all(out, file, &mut count);
    let Count { cases, differ, .. } = count;
    match ended {
        Ok(()) => println!(out; "{cases} cases, {differ} differ"),
        Err(Stop::Faulty(fault)) => {
            say::fault(err, fault, cases.wrapping_add(1));
            Ok(())
        }
        Err(Stop::Unwritten(why)) => Err(why),
    }
}

fn run(out: &impl Print, err: &impl Print, file: &mut (impl Read + Seek)) -> io::Result<()> {
    match source::start(file) {
        Ok(true) => replay_file(out, err, file),
        Ok(false) => {
            say::failed(err, "not a file of cases: its first bytes are not VRFCASE4");
            Ok(())
        }
        Err(why) => {
            say::unread(err, why);
            Ok(())
        }
    }
}

// The file of that name.
fn run_named<R: Files>(rt: &R, out: &impl Print, err: &impl Print, path: &[u8]) -> io::Result<()> {
    match input::open(rt, err, path) {
        Some(mut file) => run(out, err, &mut file),
        None => Ok(()),
    }
}

fn main(rt: HostRuntime) {
    let out = Gathered(rt.stdout());
    let err = rt.stderr();
    let mut path = [0u8; 4096];
    match rt.arg(1, &mut path) {
        Ok(n) => {
            if let Err(why) = run_named(&rt, &out, &err, &path[..n]) {
                words::end_output(&err, why);
            }
        }
        Err(_) => words::error::say(&err, "usage: replay FILE\n"),
    }
}
