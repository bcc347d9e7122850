// Refusals in words, on standard error: the number, what docs/REFUSALS.md says that it means (and what to do about it), and its
// values.
use crate::rooms::{MOST_FIELDS, MOST_IDS, PATH_BYTES, PAYLOAD_BYTES};
use array::{Extent, PairRefusal, Refusal, Walked};
use fastarray::Delta;
use words::error;

// What a number means: the table of docs/REFUSALS.md, word for word. It goes by numbers, as that table and the crates' `said` do.
fn meaning(number: u32) -> &'static str {
    match number {
        1 => "a bit count over 524,288",
        2 =>
            "a schema or the declared names aren't laid out as they have to be, or pass a size, or the root isn't one of the levels",
        3 => "a lent buffer is too short",
        4 => "a sum of two counters is over 2^64 - 1",
        6 => "the bits aren't a fast-array body, or the bytes aren't as many as the bits take",
        7 => "a read asks more bits than the window has left",
        8 => "a packed number's fifth byte says that another follows",
        9 => "a packed number's fifth byte holds more than 15",
        10 => "a serialized integer is asked with maximum 0",
        11 => "a vector is asked with scale 0",
        12 => "a vector's component is a NaN or infinite",
        13 => "more than 64 bits are asked in one read, or a rotation's width is neither 8 nor 16",
        14 =>
            "a reader or a movement has more bits than its bytes hold, a cursor passes its window or bytes, or a copy's target is too short",
        _ => "a number that no refusal has",
    }
}

fn refusal(err: &impl Print, number: u32) {
    let meaning = meaning(number);
    error::say(err, format_args!("refusal {number}: {meaning}"));
}

// A need, and the room that there is for it.
fn need(err: &impl Print, before: &[u8], needed: u32, what: &[u8], room: usize) {
    error::text(err, before);
    error::say(err, needed);
    error::text(err, what);
    error::say(err, format_args!(" (of {room})"));
}

// Why a struct or exact walk gives nothing; what it needs, beside what `vrf` has room for. These three say of an accepted answer
// that no refusal has its number, which is 0.
pub fn unwalked(err: &impl Print, r: Result<Walked<Extent>, Refusal>) {
    refusal(err, array::said::said(r).number);
    if let Err(Refusal::Short(needs)) = r {
        need(err, b": needed ", needs.leaves, b" leaves", MOST_FIELDS);
        need(err, b", ", needs.path_bytes, b" path bytes", PATH_BYTES);
        need(
            err,
            b", ",
            needs.payload_bytes,
            b" payload bytes",
            PAYLOAD_BYTES,
        );
    }
    error::text(err, b"\n");
}

// The same of an object walk.
pub fn unpaired(err: &impl Print, r: Result<Walked<u32>, PairRefusal>) {
    refusal(err, array::said::pairs_said(r).number);
    if let Err(PairRefusal::Short(pairs)) = r {
        need(err, b": needed ", pairs, b" pairs", MOST_FIELDS);
    }
    error::text(err, b"\n");
}

// The same of a fast-array body.
pub fn no_body(err: &impl Print, r: Result<Delta, fastarray::Refusal>) {
    refusal(err, fastarray::said::said(r).number);
    if let Err(fastarray::Refusal::Short(needs)) = r {
        need(err, b": needed ", needs.deletes, b" deleted ids", MOST_IDS);
        need(err, b", ", needs.items, b" items", MOST_IDS);
        need(err, b", ", needs.fields, b" fields", MOST_FIELDS);
    }
    error::text(err, b"\n");
}

// The values of a refused read, as its number names them; `stop` is where the reading stopped.
fn values(err: &impl Print, number: u32, first: u64, second: u64, third: u64, stop: u64) {
    match number {
        7 => error::say(
            err,
            format_args!(": {third} bits at bit {first} of {second}"),
        ),
        8 | 9 => error::say(err, format_args!(": the number at bit {first}")),
        12 => error::say(err, format_args!(": the vector that ends at bit {stop}")),
        14 => error::say(err, format_args!(": {first} bits of {second}")),
        _ => {}
    }
}

// Why a movement record can't be read.
pub fn unmoved(err: &impl Print, why: geometry::Refusal) {
    let told = geometry::said::said(why);
    let stop = geometry::said::stands_after(why, 0);
    refusal(err, told.number);
    values(err, told.number, told.first, told.second, told.third, stop);
    error::text(err, b"\n");
}
