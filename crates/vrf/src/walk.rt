// Walks: a line for each leaf or pair, the counters, the verdict.
ghost use Rattle.std.specs.Prelude.{◌≡◌, ◌*◌, ◌/◌, ◌≤◌, length};
ghost use Rattle.bits.specs.Sizes.{longest_window};
ghost use Rattle.framing.specs.Records.{leaf_words, pair_words};

use array::{Extent, PairRefusal, Refusal, Walked};
use framing::Walk;
use outputs::records::{LEAF_WORDS, PAIR_WORDS};
use outputs::{LeafRecord, records};
use std::io;
use tell::rooms::{MOST_FIELDS, PATH_BYTES, PAYLOAD_BYTES};
use tell::{refusals, say, verdicts};
use words::Hex;

// ---- rooms

// A pair has fewer numbers than a leaf, so that the records of leaves or of pairs fit one room. With these rooms `vrf` runs on
// a stack of 2 MiB.

const RECORD_ROOM: usize = LEAF_WORDS * MOST_FIELDS;

// Each is made by a function of its own: a proof that has to compute with arrays so long didn't close.

fn record_room() -> [u32; RECORD_ROOM]
    ensures { leaf_words * (longest_window / 16) ≡ length result }
{
    [0; RECORD_ROOM]
}

fn path_room() -> [u8; PATH_BYTES]
    ensures { 32 * (longest_window / 16) ≡ length result }
{
    [0; PATH_BYTES]
}

fn payload_room() -> [u8; PAYLOAD_BYTES]
    ensures { longest_window / 8 ≡ length result }
{
    [0; PAYLOAD_BYTES]
}

// ---- leaves

// How long the longest path of so many leaves is, at most a column. Here and below the loop counts: a record is read by its number.
fn path_width(leaves: &[u32], count: usize) -> usize
    requires { count ≤ length leaves.now / leaf_words }
{
    let mut width = 4;
    for i in 0..count {
        let leaf = records::leaf_at(leaves, i);
        width = width.max(leaf.path_length as usize);
    }
    width.min(say::COLUMN)
}

fn say_leaf(
    out: &impl Print,
    leaf: LeafRecord,
    paths: &[u8],
    payloads: &[u8],
    width: usize,
) -> io::Result<()> {
    let bits = leaf.payload_bits;
    let path = say::part(paths, leaf.path_start, leaf.path_length);
    say::left(out, path, width)?;
    let handle = leaf.handle;
    let start = leaf.window_start;
    let payload = Hex(say::part(payloads, leaf.payload_start, bits.div_ceil(8)));
    println!(out; "{handle:>12}{bits:>8}{start:>9}  {payload}")
}

fn say_leaves(
    out: &impl Print,
    count: usize,
    leaves: &[u32],
    paths: &[u8],
    payloads: &[u8],
) -> io::Result<()>
    requires { count ≤ length leaves.now / leaf_words }
{
    let width = path_width(leaves, count);
    say::left(out, b"path", width)?;
    out.println("      handle    bits    start  payload")?;
    for i in 0..count {
        let leaf = records::leaf_at(leaves, i);
        say_leaf(out, leaf, paths, payloads, width)?;
    }
    Ok(())
}

fn report(
    out: &impl Print,
    err: &impl Print,
    r: Result<Walked<Extent>, Refusal>,
    leaves: &[u32],
    paths: &[u8],
    payloads: &[u8],
) -> io::Result<()> {
    match r {
        Ok(walked) => {
            let count = (walked.filled.leaves as usize).min(leaves.len() / LEAF_WORDS);
            say_leaves(out, count, leaves, paths, payloads)?;
            verdicts::report(out, walked.stats, walked.verdict, walked.padded)
        }
        Err(_) => {
            refusals::unwalked(err, r);
            Ok(())
        }
    }
}

// ---- pairs

fn say_pairs(out: &impl Print, count: usize, pairs: &[u32]) -> io::Result<()>
    requires { count ≤ length pairs.now / pair_words }
{
    out.println("     index      object")?;
    for i in 0..count {
        let pair = records::pair_at(pairs, i);
        println!(out; "{:>10}{:>12}", pair.index, pair.guid)?;
    }
    Ok(())
}

fn report_pairs(
    out: &impl Print,
    err: &impl Print,
    r: Result<Walked<u32>, PairRefusal>,
    pairs: &[u32],
) -> io::Result<()> {
    match r {
        Ok(walked) => {
            let count = (walked.filled as usize).min(pairs.len() / PAIR_WORDS);
            say_pairs(out, count, pairs)?;
            verdicts::report(out, walked.stats, walked.verdict, walked.padded)
        }
        Err(_) => {
            refusals::unpaired(err, r);
            Ok(())
        }
    }
}

// ---- the walk

// A struct walk by the twelve levels, from a level or without a schema.
fn decode_by_levels(
    root: u32,
    bytes: &[u8],
    bits: u32,
    leaves: &mut [u32],
    paths: &mut [u8],
    payloads: &mut [u8],
) -> Result<Walked<Extent>, Refusal> {
    let declared = [0u32; 0];
    let declared_names = [0u8; 0];
    let mut rows = [0u32; schema::twelve::ROW_NUMBERS];
    let mut names = [0u8; schema::twelve::NAME_BYTES];
    let _ = schema::twelve::fill_schema(&mut rows, &mut names);
    array::decode_struct_array(
        bytes,
        bits,
        &rows,
        schema::twelve::LEVELS,
        root,
        &names,
        &declared,
        &declared_names,
        leaves,
        paths,
        payloads,
    )
}

fn decode_exact(
    bytes: &[u8],
    bits: u32,
    leaves: &mut [u32],
    paths: &mut [u8],
    payloads: &mut [u8],
) -> Result<Walked<Extent>, Refusal> {
    let declared = [0u32; 0];
    let declared_names = [0u8; 0];
    array::decode_struct_array_exact(
        bytes,
        bits,
        &declared,
        &declared_names,
        leaves,
        paths,
        payloads,
    )
}

// The walk, and what is to be said of it; a struct walk starts at the level `root`.
pub fn array(
    out: &impl Print,
    err: &impl Print,
    walk: Walk,
    root: u32,
    bytes: &[u8],
    bits: u32,
) -> io::Result<()> {
    let mut record_space = record_room();
    let mut path_space = path_room();
    let mut payload_space = payload_room();
    let records: &mut [u32] = &mut record_space;
    let paths: &mut [u8] = &mut path_space;
    let payloads: &mut [u8] = &mut payload_space;
    match walk {
        Walk::Struct => {
            let r = decode_by_levels(root, bytes, bits, records, paths, payloads);
            report(out, err, r, records, paths, payloads)
        }
        Walk::Exact => {
            let r = decode_exact(bytes, bits, records, paths, payloads);
            report(out, err, r, records, paths, payloads)
        }
        Walk::Object => {
            let r = array::decode_object_ref_array(bytes, bits, records);
            report_pairs(out, err, r, records)
        }
    }
}
