// A fast-array body: its header, the deleted ids, and each item with a line for each of its fields.
use bitio::Cursor;
use fastarray::{ChecksumMode, Delta};
use std::io;
use tell::rooms::{MOST_FIELDS, MOST_IDS};
use tell::{refusals, say};

// The numbers of an item, and of a field.
const ITEM_SIZE: usize = 2;

const FIELD_SIZE: usize = 3;

const ITEM_ROOM: usize = ITEM_SIZE * MOST_IDS;

const FIELD_ROOM: usize = FIELD_SIZE * MOST_FIELDS;

// ---- parts

// So many, or all where there are fewer.
fn front<T>(s: &[T], n: u32) -> &[T] {
    s.get(..n as usize).unwrap_or(s)
}

fn say_header(out: &impl Print, delta: Delta) -> io::Result<()> {
    println!(out; "{:<24}{}", "key", delta.key)?;
    println!(out; "{:<24}{}", "base key", delta.base)?;
    say::named(out, "deleted ids", u64::from(delta.deletes))?;
    say::named(out, "changed items", u64::from(delta.changes))?;
    say::named(out, "fields", u64::from(delta.fields))?;
    say::named(out, "padded numbers", u64::from(delta.padded))
}

fn say_deleted(out: &impl Print, ids: &[i32]) -> io::Result<()> {
    for id in ids {
        println!(out; "deleted {id}")?;
    }
    Ok(())
}

// The next eight bits of the window, or the n that are left.
fn say_byte(out: &impl Print, bytes: &[u8], len: u64, pos: u64, n: u64) -> io::Result<()> {
    let start = 0;
    let c = Cursor { start, pos, len };
    let read = bitio::read_bits(bytes, c, n);
    match read {
        Ok(read) => print!(out; "{:02x}", read.value),
        Err(_) => print!(out; "??"),
    }
}

// Bits of the window as bytes in hex, or `-` for none.
fn say_payload(
    out: &impl Print,
    bytes: &[u8],
    bits: u32,
    first: u32,
    width: u32,
) -> io::Result<()> {
    if width == 0 {
        print!(out; "-")?;
    }
    let start = u64::from(first);
    let end = start + u64::from(width);
    for at in (start..end).step_by(8) {
        say_byte(out, bytes, u64::from(bits), at, (end - at).min(8))?;
    }
    Ok(())
}

fn say_fields(
    out: &impl Print,
    bytes: &[u8],
    bits: u32,
    fields: &[[u32; FIELD_SIZE]],
) -> io::Result<()> {
    if !fields.is_empty() {
        out.println("    handle    bits  payload")?;
    }
    for [handle, first, width] in fields {
        print!(out; "{handle:>10}{width:>8}  ")?;
        say_payload(out, bytes, bits, *first, *width)?;
        out.println("")?;
    }
    Ok(())
}

// The items, each with its part of the fields.
fn say_items(
    out: &impl Print,
    bytes: &[u8],
    bits: u32,
    items: &[[u32; ITEM_SIZE]],
    fields: &[[u32; FIELD_SIZE]],
) -> io::Result<()> {
    let mut rest = fields;
    for [id, own] in items {
        let (own_fields, further) = rest.split_at(rest.len().min(*own as usize));
        rest = further;
        println!(out; "item {}", id.cast_signed())?;
        say_fields(out, bytes, bits, own_fields)?;
    }
    Ok(())
}

// ---- the body

fn say_body(
    out: &impl Print,
    delta: Delta,
    bytes: &[u8],
    bits: u32,
    ids: &[i32],
    items: &[u32],
    fields: &[u32],
) -> io::Result<()> {
    let (items, _) = items.as_chunks::<ITEM_SIZE>();
    let (fields, _) = fields.as_chunks::<FIELD_SIZE>();
    say_header(out, delta)?;
    say_deleted(out, front(ids, delta.deletes))?;
    say_items(out, bytes, bits, front(items, delta.changes), fields)?;
    let used = delta.used;
    println!(out; "verdict: a whole fast-array body; it takes all {used} bits")
}

pub fn body(
    out: &impl Print,
    err: &impl Print,
    mode: ChecksumMode,
    bytes: &[u8],
    bits: u32,
) -> io::Result<()> {
    let mut id_space = [0i32; MOST_IDS];
    let mut item_space = [0u32; ITEM_ROOM];
    let mut field_space = [0u32; FIELD_ROOM];
    let ids: &mut [i32] = &mut id_space;
    let items: &mut [u32] = &mut item_space;
    let fields: &mut [u32] = &mut field_space;
    // the bytes that so many bits take, of a file that may have more
    let payload = front(bytes, bits.div_ceil(8));
    let r = fastarray::decode_fast_array_delta(payload, bits, mode, ids, items, fields);
    match r {
        Ok(delta) => say_body(out, delta, payload, bits, ids, items, fields),
        Err(_) => {
            refusals::no_body(err, r);
            Ok(())
        }
    }
}
