// Recorded walks: each is walked again, lent outputs that are exactly full, longer, and one number or byte too short.
//
// The parts of their cases, in the words of `replay`'s format:
//
//     tables = list run list run: rows and their name pool, declared numbers and theirs
//     counts = the seven counters, in the order of ArrayDecodeStats, then the verdict: 0 clean, 1 partial, 2 empty; then the
//              padded numbers: how many of the packed numbers that the walk took have a shorter form
//     walk   = number, counts, leaves, path bytes, payload bytes, whole, and where whole is 1: list run run
//
// The number is 0, or the refusal's by document 01. Of a refused walk counts and needs are 0, and its outputs stand there with
// nothing in them.
//
// Behind the counts of a walk stands what it needs of each output, then what it writes: the records of the leaves (as the crate
// `outputs` lays them out), the path bytes and the payload bytes. Where whole is 0, they don't stand there; such a walk, and one
// whose outputs are larger than what the caller lends, is lent nothing, and has to be refused for its needs. An object walk
// writes the records of pairs alone.
#![tactic(auto)]

pub mod answers;
pub mod calls;
pub mod trials;
pub mod walks;
