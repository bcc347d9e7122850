// The fast-array body (vrf-decode/src/fastarray.rs): a support bit, four words, deleted ids, and changed items with their fields.
//
//     body  = support bit (1), key, base key, deletes, changes, deleted id * deletes, item * changes
//     item  = id, checksum flag (one bit, in present mode only), field*, the packed number 0
//     field = handle + 1 (packed), width (packed), `width` bits of payload
//
// A body fills its window exactly. It is read twice: once lent nothing, which tells whether it is one and what it needs, and
// once to write; nothing is written unless everything fits.
#![tactic(auto)]

mod fields;
mod header;
mod items;
mod read;
pub mod said;
mod store;

ghost use Rattle.std.specs.Prelude.{◌≡◌, ◌+◌, ◌*◌, ◌≤◌, length};
ghost use Rattle.bits.specs.Sizes.{longest_window};
ghost use Rattle.fastarray.specs.Body.{header_bits, window, deleted_from, items_from, flag_bits_lem};
ghost use Rattle.fastarray.specs.Records.{deleted_record, store_all};
ghost use Rattle.fastarray.specs.Parts.{ItemsStored};
ghost use Rattle.fastarray.specs.Answers.{call, lent, room_for, Answered};

use bits::sizes::LONGEST_WINDOW;

// The support bit and the four words.
const HEADER_BITS: u64 = 129;

// Whether a flag bit stands between an item's id and its fields. Both modes can fit the same bits: the caller knows which it is.
#[derive(Clone, Copy)]
pub enum ChecksumMode {
    Absent,
    Present,
}

// The header of a body, and how much it holds.
#[derive(Clone, Copy)]
pub struct Delta {
    pub key: i32,
    pub base: i32,
    pub deletes: u32,
    pub changes: u32,
    // The fields of all items.
    pub fields: u32,
    // The bits used: all of the window.
    pub used: u32,
    // The padded ones among the packed numbers: more bytes than their value needs.
    pub padded: u32,
}

// The records that a body needs room for in the lent buffers.
#[derive(Clone, Copy)]
pub struct Need {
    pub deletes: u32,
    pub items: u32,
    pub fields: u32,
}

#[derive(Clone, Copy)]
pub enum Refusal {
    // 1: the window is longer than 524,288 bits.
    TooLong,
    // 6: the bits are no fast-array body, or the bytes are not as many as the bits take.
    NotFastArray,
    // 3: a lent buffer is too short.
    Short(Need),
}

// ---- what is read, and what the parts of a reading say

// The first `end` bits of the bytes.
#[derive(Clone, Copy)]
struct Window<'a> {
    bytes: &'a [u8],
    end: u64,
    ghost held: { end ≤ 8 * length bytes.now },
    ghost short: { end ≤ longest_window },
}

// A packed number and its bytes.
#[derive(Clone, Copy)]
struct Taken {
    value: u32,
    bytes: u64,
}

// What stands where a handle number is due.
#[derive(Clone, Copy)]
enum FieldHead {
    // Zero: the bit behind it, and the padded numbers so far.
    Closes {
        next: u64,
        padded: u64,
    },
    // A field, whose payload starts at bit offset, and the padded numbers so far.
    Opens {
        handle: u32,
        offset: u64,
        width: u32,
        padded: u64,
    },
}

// How far a reading has come.
#[derive(Clone, Copy)]
struct Reached {
    // The fields so far.
    fields: u64,
    // The bit behind what was read.
    next: u64,
    // The padded numbers so far.
    padded: u64,
}

// ---- the call

// What such a body needs.
fn need_of(delta: Delta) -> Need
    ensures { result ≡ record { deletes = delta.deletes; items = delta.changes; fields = delta.fields } }
{
    Need {
        deletes: delta.deletes,
        items: delta.changes,
        fields: delta.fields,
    }
}

// Whether so many records fit buffers of these lengths.
#[tactic(auto, unfolding(crate::specs::Answers::room_for))]
fn has_room(need: Need, dlen: usize, ilen: usize, flen: usize) -> bool
    ensures { result ≡ room_for need.deletes need.items need.fields dlen ilen flen }
{
    need.deletes as usize <= dlen
        && need.items as usize <= ilen / 2
        && need.fields as usize <= flen / 3
}

// The second reading, of a body with these counts.
fn write_body(
    w: &Window,
    mode: ChecksumMode,
    delta: Delta,
    deleted: &mut [i32],
    items: &mut [u32],
    fields: &mut [u32],
)
    requires { (header_bits + 32 * delta.deletes ≤ w.now.end) × (delta.changes ≤ longest_window) }
    ensures ids { deleted.new ≡ store_all deleted_record deleted.old 0
        (deleted_from delta.deletes (window w.now.bytes.now w.now.end) header_bits) }
    ensures stored { ItemsStored
        (items_from delta.changes (flag_bits_lem mode) (window w.now.bytes.now w.now.end) w.now.end (header_bits + 32 * delta.deletes)) 0 0
        items.old fields.old items.new fields.new }
{
    let deletes = delta.deletes as u64;
    let changes = delta.changes as u64;
    items::read_deleted(w, HEADER_BITS, deletes, deleted);
    let at = HEADER_BITS + 32 * deletes;
    items::read_items(w, at, changes, mode, items, fields);
}

// The body that the first `bits` bits of the payload are. Deleted ids are an i32 each; an item is two numbers, the bits of its id
// and how many fields it has; a field is its handle, the first bit of its payload and its width.
// Items and fields stay flat numbers: the C interface lends them so.
pub fn decode_fast_array_delta(
    payload: &[u8],
    bits: u32,
    mode: ChecksumMode,
    deleted: &mut [i32],
    items: &mut [u32],
    fields: &mut [u32],
) -> Result<Delta, Refusal>
    ensures { Answered (call payload.now bits mode)
        (lent deleted.old items.old fields.old) result
        (lent deleted.new items.new fields.new) }
{
    if LONGEST_WINDOW < bits {
        return Err(Refusal::TooLong);
    }
    let end = bits as u64;
    let size = ((end + 7) / 8) as usize;
    if payload.len() != size {
        return Err(Refusal::NotFastArray);
    }
    let window = Window {
        bytes: payload,
        end,
    };
    let delta = header::measure(&window, mode).ok_or(Refusal::NotFastArray)?;
    let need = need_of(delta);
    if !has_room(need, deleted.len(), items.len(), fields.len()) {
        return Err(Refusal::Short(need));
    }
    write_body(&window, mode, delta, deleted, items, fields);
    Ok(delta)
}
