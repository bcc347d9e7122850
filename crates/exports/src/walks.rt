// Answers of the walks, the merge, the schema and the fast array as structs for C.
ghost use Rattle.std.specs.Prelude.{◌≡◌};
ghost use Rattle.array.specs.Calls.{verdict_is};
ghost use Rattle.schema.specs.Refusals.{filled_numbered};
ghost use Rattle.array.specs.Refusals.{counters_of_lem, answer_of, pairs_of, sums_of};
ghost use Rattle.fastarray.specs.Refusals.{numbered};
ghost use Rattle.exports.specs.WalkResults.{counters_in, counters_out, verdict_number_lem, not_walked_lem, walk_of, no_pairs_lem, objects_of_lem, merge_result, not_filled_lem, schema_result, mode_of, no_body_lem, body_result};

use crate::{VrfCounters, VrfFastArray, VrfMerge, VrfObjects, VrfSchema, VrfWalk};
use array::{ArrayDecodeStats, Extent, Overflow, PairRefusal, Refusal, Verdict, Walked};
use fastarray::{ChecksumMode, Delta};
use schema::Short;
use schema::twelve::{LEVELS, NAME_BYTES, ROW_NUMBERS};

// ---- counters and verdicts

pub fn stats_of(c: VrfCounters) -> ArrayDecodeStats
    ensures { counters_of_lem result ≡ counters_in c }
{
    ArrayDecodeStats {
        elements_decoded: c.elements,
        fields_emitted: c.fields,
        truncations: c.truncations,
        errors: c.errors,
        unconsumed_nested_bits: c.nested_bits,
        unconsumed_root_bits: c.root_bits,
        implicit_terminations: c.implicit_terminations,
    }
}

fn counters_of(s: ArrayDecodeStats) -> VrfCounters
    ensures { result ≡ counters_out (counters_of_lem s) }
{
    VrfCounters {
        elements: s.elements_decoded,
        fields: s.fields_emitted,
        truncations: s.truncations,
        errors: s.errors,
        nested_bits: s.unconsumed_nested_bits,
        root_bits: s.unconsumed_root_bits,
        implicit_terminations: s.implicit_terminations,
    }
}

// What stands in the place of the counters and the verdict where a walk is refused.
const NO_COUNTERS: VrfCounters = VrfCounters {
    elements: 0,
    fields: 0,
    truncations: 0,
    errors: 0,
    nested_bits: 0,
    root_bits: 0,
    implicit_terminations: 0,
};

// That is clean's number too: a caller looks at the refusal first.
const NO_VERDICT: u32 = 0;

// C's numbers. `walked` has its own of the recorded cases: one function for both would be one more public call of `array`.
pub fn verdict_number(v: Verdict) -> u32
    ensures { result ≡ verdict_number_lem (verdict_is v) }
{
    match v {
        Verdict::Clean => 0,
        Verdict::Partial => 1,
        Verdict::Empty => 2,
    }
}

// ---- walks

// What a refused walk says.
fn not_walked(why: Refusal) -> VrfWalk
    ensures { result ≡ not_walked_lem (answer_of (Err why)) }
{
    let told = array::said::said(Err(why));
    VrfWalk {
        refusal: told.number,
        leaves: told.need.leaves,
        path_bytes: told.need.path_bytes,
        payload_bytes: told.need.payload_bytes,
        counters: NO_COUNTERS,
        verdict: NO_VERDICT,
        padded: 0,
    }
}

pub fn walk_of(a: Result<Walked<Extent>, Refusal>) -> VrfWalk
    ensures { result ≡ walk_of a }
{
    match a {
        Ok(walked) => VrfWalk {
            refusal: 0,
            leaves: walked.filled.leaves,
            path_bytes: walked.filled.path_bytes,
            payload_bytes: walked.filled.payload_bytes,
            counters: counters_of(walked.stats),
            verdict: verdict_number(walked.verdict),
            padded: walked.padded,
        },
        Err(why) => not_walked(why),
    }
}

// What a refused object walk says.
fn no_pairs(why: PairRefusal) -> VrfObjects
    ensures { result ≡ no_pairs_lem (pairs_of (Err why)) }
{
    let told = array::said::pairs_said(Err(why));
    VrfObjects {
        refusal: told.number,
        pairs: told.need,
        counters: NO_COUNTERS,
        verdict: NO_VERDICT,
        padded: 0,
    }
}

pub fn objects_of(a: Result<Walked<u32>, PairRefusal>) -> VrfObjects
    ensures { result ≡ objects_of_lem a }
{
    match a {
        Ok(walked) => VrfObjects {
            refusal: 0,
            pairs: walked.filled,
            counters: counters_of(walked.stats),
            verdict: verdict_number(walked.verdict),
            padded: walked.padded,
        },
        Err(why) => no_pairs(why),
    }
}

pub fn merge_of(a: Result<ArrayDecodeStats, Overflow>) -> VrfMerge
    ensures { result ≡ merge_result (sums_of a) }
{
    let refusal = array::said::merge_number(a);
    let counters = match a {
        Ok(sum) => counters_of(sum),
        Err(overflow) => counters_of(overflow.left),
    };
    VrfMerge { refusal, counters }
}

// ---- the schema, and the fast array

// What the schema's call says of buffers that are too short.
fn not_filled(a: Result<(), Short>) -> VrfSchema
    ensures { result ≡ not_filled_lem (filled_numbered a) }
{
    let told = schema::said::said(a);
    VrfSchema {
        refusal: told.number,
        rows: told.rows,
        names: told.names,
        levels: 0,
    }
}

pub fn schema_of(a: Result<(), Short>) -> VrfSchema
    ensures { result ≡ schema_result a }
{
    match a {
        Ok(()) => VrfSchema {
            refusal: 0,
            rows: ROW_NUMBERS,
            names: NAME_BYTES,
            levels: LEVELS,
        },
        Err(_) => not_filled(a),
    }
}

// The mode stays a number here: C hands it so.
pub fn mode_of(checksum: u32) -> ChecksumMode
    ensures { result ≡ mode_of checksum }
{
    if checksum == 0 {
        ChecksumMode::Absent
    } else {
        ChecksumMode::Present
    }
}

// What a refused body says.
fn no_body(a: Result<Delta, fastarray::Refusal>) -> VrfFastArray
    ensures { result ≡ no_body_lem (numbered a) }
{
    let told = fastarray::said::said(a);
    VrfFastArray {
        refusal: told.number,
        deletes: told.deletes,
        items: told.items,
        fields: told.fields,
        key: 0,
        base: 0,
        used: 0,
        padded: 0,
    }
}

pub fn fast_array_of(a: Result<Delta, fastarray::Refusal>) -> VrfFastArray
    ensures { result ≡ body_result a }
{
    match a {
        Ok(delta) => VrfFastArray {
            refusal: 0,
            deletes: delta.deletes,
            items: delta.changes,
            fields: delta.fields,
            key: delta.key,
            base: delta.base,
            used: delta.used,
            padded: delta.padded,
        },
        Err(_) => no_body(a),
    }
}
