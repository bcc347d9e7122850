// Reads inside a window.
ghost use Rattle.std.specs.Prelude.{◌≡◌, ◌+◌, ◌≤◌, ◌<◌};
ghost use Rattle.bits.specs.Bits.{field};
ghost use Rattle.bits.specs.Packed.{most_bytes};
ghost use Rattle.bits.specs.Sizes.{longest_window};
ghost use Rattle.fastarray.specs.Body.{window, packed_at, signed_at, flag_bits_lem};
ghost use Rattle.fastarray.specs.Parts.{taken_of, padded_one_lem};

use crate::{ChecksumMode, Taken, Window};

// The bits between an item's id and its fields.
pub fn flag_bits(mode: ChecksumMode) -> u64
    ensures { result ≡ flag_bits_lem mode }
{
    match mode {
        ChecksumMode::Absent => 0,
        ChecksumMode::Present => 1,
    }
}

// The support bit.
#[tactic(auto, using(crate::proofs::ReadLaws::window_field))]
pub fn first_bit(w: &Window) -> u64
    requires { 1 ≤ w.now.end }
    ensures { result ≡ field (window w.now.bytes.now w.now.end) 0 1 }
{
    bits::field::field_of(w.bytes, 0, 1)
}

// The 32 bits at bit at.
#[tactic(auto, using(crate::proofs::ReadLaws::window_field))]
pub fn word_of(w: &Window, at: u64) -> u32
    requires { at + 32 ≤ w.now.end }
    ensures { result ≡ field (window w.now.bytes.now w.now.end) at 32 }
{
    let word = bits::field::field_of(w.bytes, at, 32);
    word as u32
}

// The same as an i32.
pub fn signed_of(w: &Window, at: u64) -> i32
    requires { at + 32 ≤ w.now.end }
    ensures { result ≡ signed_at (window w.now.bytes.now w.now.end) at }
{
    let word = word_of(w, at);
    let raw = word as u64;
    let value = bits::integer::signed(raw, 32);
    value as i32
}

// The packed number at bit at.
pub fn number_of(w: &Window, at: u64) -> Option<Taken>
    requires { at ≤ w.now.end }
    ensures { result ≡ taken_of (packed_at (window w.now.bytes.now w.now.end) w.now.end at) }
{
    match bits::number::packed_at(w.bytes, at, w.end) {
        Ok(found) => Some(Taken {
            value: found.value,
            bytes: found.bytes,
        }),
        Err(_) => None,
    }
}

// One more than count if the number is padded.
pub fn padded_one(count: u64, number: Taken) -> u64
    requires { (count ≤ longest_window) × (number.bytes ≤ most_bytes) }
    ensures { result ≡ count + padded_one_lem number.value number.bytes }
{
    count + bits::number::is_padded(number.value, number.bytes) as u64
}

// The same of two numbers. Mostly each has one byte; then none is padded.
pub fn padded_two(count: u64, first: Taken, second: Taken) -> u64
    requires { (count < longest_window) × (1 ≤ first.bytes) × (first.bytes ≤ most_bytes) × (1 ≤ second.bytes) × (second.bytes ≤ most_bytes) }
    ensures { result ≡ count + padded_one_lem first.value first.bytes + padded_one_lem second.value second.bytes }
{
    if first.bytes + second.bytes == 2 {
        return count;
    }
    let one = padded_one(count, first);
    padded_one(one, second)
}
