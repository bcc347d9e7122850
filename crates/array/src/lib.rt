// The public walks (vrf-decode/src/array.rs): arrays of structs and of object references, out of a window of bits into lent
// buffers.
//
//     array   = count, element*, 0, and an optional trailer 0 in eight last bits
//     element = index + 1, field*, 0
//     field   = handle + 1, width, `width` bits of payload: an array where the schema says so, else a leaf
//
// All numbers are packed. A window is walked twice: once lent nothing, which tells what is needed, and once to write. A refused
// call writes nothing.
#![tactic(auto)]

mod passes;
pub mod said;
pub mod stats;
mod twice;
mod verdicts;

ghost use Rattle.std.specs.Prelude.{◌≡◌, IsTrue, ltb};
ghost use Rattle.bits.specs.Sizes.{longest_window};
ghost use Rattle.schema.specs.Tables.{tables};
ghost use Rattle.framing.specs.Sinks.{walker, gives_leaves_lem};
ghost use Rattle.array.specs.Calls.{call_of, struct_call, exact_call, lent, Decodes, DecodesPairs};

use crate::twice::two_passes;
use bits::sizes::LONGEST_WINDOW;
use framing::Walk;
use schema::ABSENT;
use schema::layout::check_tables;

// What a walk counted.
#[derive(Clone, Copy)]
pub struct ArrayDecodeStats {
    // Elements, of all levels.
    pub elements_decoded: u64,
    // Leaves, kept tails among them; in an object walk pairs.
    pub fields_emitted: u64,
    // Times that more stood there than is allowed: elements, fields, levels.
    pub truncations: u64,
    // Numbers that can't be read, indexes that aren't below the count, payloads past the window: the rest of that array is
    // lost. In an object walk also an element's first payload that isn't one number: its pair is lost. A window past its bytes
    // is one error.
    pub errors: u64,
    // Bits inside payloads that the walk stepped past.
    pub unconsumed_nested_bits: u64,
    // Bits behind the root array's terminator.
    pub unconsumed_root_bits: u64,
    // Times that a window ended where the zero of an element or an array was due.
    pub implicit_terminations: u64,
}

// The verdict on a window or, by `stats::verdict`, on a set of counters. Clean counters don't make a window clean: a struct or exact
// walk of no bits is empty.
#[derive(Clone, Copy)]
pub enum Verdict {
    // All of it was read, as one whole array: there is a bit or more, and the five counters behind fields_emitted are 0.
    Clean,
    // Something is broken, cut off, over a limit or left unread.
    Partial,
    // Nothing was sent: a struct or exact walk of no bits. A sheet has no row for it.
    Empty,
}

// How much of each output a walk fills, or would.
#[derive(Clone, Copy)]
pub struct Extent {
    pub leaves: u32,
    pub path_bytes: u32,
    pub payload_bytes: u32,
}

// What an accepted walk gives: `Walked<Extent>` of a struct or exact walk, `Walked<u32>` of an object walk, which fills pairs.
#[derive(Clone, Copy)]
pub struct Walked<N> {
    pub stats: ArrayDecodeStats,
    pub verdict: Verdict,
    pub filled: N,
    // The padded numbers among those that were read.
    pub padded: u32,
}

// Why a struct or exact walk is refused.
#[derive(Clone, Copy)]
pub enum Refusal {
    // 1: the window is longer than 524,288 bits.
    TooLong,
    // 2: the schema's rows or the declared names are not laid out as they have to be.
    BrokenTables,
    // 3: some output has too little room. What each of them needs.
    Short(Extent),
}

// Why an object walk is refused: no `Refusal`, since it is lent no tables that could be broken.
#[derive(Clone, Copy)]
pub enum PairRefusal {
    // 1: the window is longer than 524,288 bits.
    TooLong,
    // 3: the output has too little room. How many pairs it needs to hold.
    Short(u32),
}

// Why two walks' counters aren't added. 4: a sum doesn't fit 64 bits.
#[derive(Clone, Copy)]
pub struct Overflow {
    // The left counters, as they were.
    pub left: ArrayDecodeStats,
}

// ---- the calls
//
// `bits` is how many of the bytes' bits are walked. `rows`, `levels`, `root` and `names` are the schema: its table, how many
// levels it has, the level of the root's elements, the bytes of its names; `root` is 4294967295 where there is no schema.
// `declared` and `declared_names` are the declared handles and the bytes of their names; 4294967295 stands for a name's start
// where a handle has none.

// Refusal 1.
fn is_too_long(bits: u32) -> bool
    ensures { result ≡ ltb longest_window bits }
{
    LONGEST_WINDOW < bits
}

// What a struct and an exact walk have in common: a walk that gives leaves; refusals in the order 1, 2, 3.
fn decode_leaves<'a>(
    walk: Walk,
    bytes: &[u8],
    bits: u32,
    rows: &[u32],
    levels: u32,
    root: u32,
    names: &'a [u8],
    declared: &[u32],
    declared_names: &'a [u8],
    leaves: &mut [u32],
    paths: &mut [u8],
    payloads: &mut [u8],
) -> Result<Walked<Extent>, Refusal>
    requires { IsTrue (gives_leaves_lem walk) }
    ensures { Decodes
        (call_of (walker walk (tables rows.now names.now declared.now declared_names.now) root) levels
        bytes.now bits)
        (lent leaves.old paths.old payloads.old)
        result
        (lent leaves.new paths.new payloads.new) }
{
    if is_too_long(bits) {
        return Err(Refusal::TooLong);
    }
    if !check_tables(rows, levels, root, names, declared, declared_names) {
        return Err(Refusal::BrokenTables);
    }
    two_passes(
        bytes,
        bits as u64,
        walk,
        root,
        rows,
        names,
        declared,
        declared_names,
        leaves,
        paths,
        payloads,
    )
    .map_err(Refusal::Short)
}

// The leaves of the array of structs in the first `bits` bits; refusals in the order 1, 2, 3. Of each leaf six numbers are
// written: where its path starts and how long it is, the handle (4294967295 for a kept tail), the bits of its payload and where
// that starts among the payload bytes, and the bit of the window at which it starts there.
pub fn decode_struct_array<'a>(
    bytes: &[u8],
    bits: u32,
    rows: &[u32],
    levels: u32,
    root: u32,
    names: &'a [u8],
    declared: &[u32],
    declared_names: &'a [u8],
    leaves: &mut [u32],
    paths: &mut [u8],
    payloads: &mut [u8],
) -> Result<Walked<Extent>, Refusal>
    ensures { Decodes
        (struct_call bytes.now bits
        (tables rows.now names.now declared.now declared_names.now) levels root)
        (lent leaves.old paths.old payloads.old)
        result
        (lent leaves.new paths.new payloads.new) }
{
    decode_leaves(
        Walk::Struct,
        bytes,
        bits,
        rows,
        levels,
        root,
        names,
        declared,
        declared_names,
        leaves,
        paths,
        payloads,
    )
}

// The same with no schema and no trailer.
pub fn decode_struct_array_exact(
    bytes: &[u8],
    bits: u32,
    declared: &[u32],
    declared_names: &[u8],
    leaves: &mut [u32],
    paths: &mut [u8],
    payloads: &mut [u8],
) -> Result<Walked<Extent>, Refusal>
    ensures { Decodes
        (exact_call bytes.now bits declared.now declared_names.now)
        (lent leaves.old paths.old payloads.old)
        result
        (lent leaves.new paths.new payloads.new) }
{
    decode_leaves(
        Walk::Exact,
        bytes,
        bits,
        &[],
        0,
        ABSENT,
        &[],
        declared,
        declared_names,
        leaves,
        paths,
        payloads,
    )
}

// The pairs of the array of object references in the first `bits` bits. A pair is two u32: index, object.
pub fn decode_object_ref_array(
    bytes: &[u8],
    bits: u32,
    pairs: &mut [u32],
) -> Result<Walked<u32>, PairRefusal>
    ensures { DecodesPairs bytes.now bits pairs.old result pairs.new }
{
    if is_too_long(bits) {
        return Err(PairRefusal::TooLong);
    }
    let passed = two_passes(
        bytes,
        bits as u64,
        Walk::Object,
        ABSENT,
        &[],
        &[],
        &[],
        &[],
        pairs,
        &mut [],
        &mut [],
    );
    match passed {
        Ok(walked) => Ok(Walked {
            stats: walked.stats,
            verdict: walked.verdict,
            filled: walked.filled.leaves,
            padded: walked.padded,
        }),
        Err(need) => Err(PairRefusal::Short(need.leaves)),
    }
}
