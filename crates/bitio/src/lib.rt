// The bit reader (vrf-bitio/src/lib.rs): reads at a cursor that stands in a window of bits of some bytes.
//
// A byte holds eight bits of a window, its lowest first, from the window's start on; a number's lowest bit is read
// first. Every call takes any bytes, any cursor and any count, and answers with a value or with one of
// document 01's refusals. A cursor goes in by value; an answer carries the next position.
#![tactic(auto, using(crate::proofs::CursorLaws::ways), unfolding(crate::specs::Cursors::seen, crate::specs::Reads::read_bits_lem, crate::specs::Copies::pasted))]

mod number;
pub mod said;

ghost use Rattle.std.specs.Prelude.{◌≡◌, ◌+◌, ◌*◌, ◌^◌, ◌<◌, ◌≤◌, length, OnOk, IfOk};
ghost use Rattle.bits.specs.Bits.{num, field};
ghost use Rattle.bitio.specs.Cursors.{bits_of, good_or_refused_lem, asking, opened, whole_of, position_of, length_of, remaining_of, end_of, skipped, skipped_all, sub_reader_lem};
ghost use Rattle.bitio.specs.Reads.{taken, read_lem, read_bit_lem, read_bits_lem, read_u8_lem, read_u16_lem, read_u32_lem, read_i32_lem, read_u64_lem};
ghost use Rattle.bitio.specs.Numbers.{log2, read_int_packed_lem, read_serialized_int_lem};
ghost use Rattle.bitio.specs.Copies.{CopiesBits};

use bits::Broken;
use bits::sizes::LONGEST_WINDOW;
use number::Number;

// ---- a cursor, and what the calls answer

#[derive(Clone, Copy)]
pub struct Cursor {
    // The window's first bit in the bytes.
    pub start: u64,
    // The next bit to read, in the window.
    pub pos: u64,
    // The window's length in bits.
    pub len: u64,
}

// Why a call gives no value, with the values of document 01's table.
#[derive(Clone, Copy)]
pub enum Refusal {
    // 1: the window is longer than 524,288 bits.
    TooLong,
    // 7: a read asks more bits than are left. Position, length, bits asked; the cursor stands at the position.
    TooFew(u64, u64, u64),
    // 8: a packed number's fifth byte says that another follows. Where it starts; the cursor stands 40 bits on.
    GoesOn(u64),
    // 9: a packed number's fifth byte holds more than 15. Where it starts; the cursor stands 40 bits on.
    Overflows(u64),
    // 10: a serialized integer is asked with maximum 0.
    NoMaximum,
    // 13: a read of more than 64 bits.
    TooMany,
    // 14: past the bytes or the length, or a target that is too short. How many bits were asked, how many there are.
    Past(u64, u64),
}

// What was read, and the next position.
#[derive(Clone, Copy)]
pub struct Read<T> {
    pub value: T,
    pub next: u64,
}

// A packed number: its value, the bytes that it took (1 to 5), and whether it is padded: fewer bytes hold the value too.
#[derive(Clone, Copy)]
pub struct PackedNumber {
    pub value: u32,
    pub bytes: u32,
    pub padded: bool,
}

// ---- readers

// The bits of the bytes: 8 times their number, at most the largest u64.
fn bits_of(bytes: &[u8]) -> u64
    ensures { result ≡ bits_of bytes.now }
{
    (bytes.len() as u64).saturating_mul(8)
}

// Whether the cursor lies in its length, and its window in the bytes.
#[tactic(auto, using(crate::proofs::CursorLaws::ways), unfolding(crate::specs::Cursors::at_cursor, crate::specs::Cursors::good))]
fn good_or_refused(bytes: &[u8], c: Cursor) -> Result<(), Refusal>
    ensures value { result ≡ good_or_refused_lem bytes.now c }
    ensures within { OnOk result (c.pos ≤ c.len) }
    ensures ends { OnOk result (c.start + c.len ≤ bits_of bytes.now) }
{
    let all = bits_of(bytes);
    if c.pos <= c.len && c.start <= all && c.len <= all - c.start {
        Ok(())
    } else {
        Err(Refusal::Past(c.len, all))
    }
}

// The position `count` bits on from `pos`, in a window of `len` bits.
#[tactic(auto, unfolding(crate::specs::Cursors::asking))]
fn past(len: u64, pos: u64, count: u64) -> Result<u64, Refusal>
    requires { pos ≤ len }
    ensures value { result ≡ asking len pos count (Ok (pos + count)) }
    ensures within { OnOk result (pos + count ≤ len) }
{
    if len - pos < count {
        return Err(Refusal::TooFew(pos, len, count));
    }
    let next = pos + count;
    Ok(next)
}

// A reader of the first `count` bits.
#[tactic(auto, unfolding(crate::specs::Cursors::opened))]
pub fn open(bytes: &[u8], count: u64) -> Result<Cursor, Refusal>
    ensures { result ≡ opened bytes.now count }
{
    if (LONGEST_WINDOW as u64) < count {
        return Err(Refusal::TooLong);
    }
    let all = bits_of(bytes);
    if all < count {
        return Err(Refusal::Past(count, all));
    }
    Ok(Cursor {
        start: 0,
        pos: 0,
        len: count,
    })
}

// A reader of all bits.
pub fn new(bytes: &[u8]) -> Cursor
    ensures { result ≡ whole_of bytes.now }
{
    let all = bits_of(bytes);
    Cursor {
        start: 0,
        pos: 0,
        len: all,
    }
}

// The bits that are read.
pub fn position(bytes: &[u8], c: Cursor) -> Result<u64, Refusal>
    ensures { result ≡ position_of bytes.now c }
{
    good_or_refused(bytes, c)?;
    Ok(c.pos)
}

// The window's length in bits.
pub fn len_bits(bytes: &[u8], c: Cursor) -> Result<u64, Refusal>
    ensures { result ≡ length_of bytes.now c }
{
    good_or_refused(bytes, c)?;
    Ok(c.len)
}

// The bits that are left.
pub fn bits_remaining(bytes: &[u8], c: Cursor) -> Result<u64, Refusal>
    ensures { result ≡ remaining_of bytes.now c }
{
    good_or_refused(bytes, c)?;
    let left = c.len - c.pos;
    Ok(left)
}

// Whether no bits are left.
pub fn at_end(bytes: &[u8], c: Cursor) -> Result<bool, Refusal>
    ensures { result ≡ end_of bytes.now c }
{
    good_or_refused(bytes, c)?;
    Ok(c.pos == c.len)
}

// Past the next `count` bits.
pub fn skip_bits(bytes: &[u8], c: Cursor, count: u64) -> Result<u64, Refusal>
    ensures { result ≡ skipped bytes.now c count }
{
    good_or_refused(bytes, c)?;
    past(c.len, c.pos, count)
}

// Past all bits that are left.
pub fn skip_remaining(bytes: &[u8], c: Cursor) -> Result<u64, Refusal>
    ensures { result ≡ skipped_all bytes.now c }
{
    good_or_refused(bytes, c)?;
    let next = c.len;
    Ok(next)
}

// The next `count` bits as a window of their own, and the position past them in the outer one.
pub fn sub_reader(bytes: &[u8], c: Cursor, count: u64) -> Result<Read<Cursor>, Refusal>
    ensures { result ≡ sub_reader_lem bytes.now c count }
{
    let next = skip_bits(bytes, c, count)?;
    let start = c.start + c.pos;
    let value = Cursor {
        start,
        pos: 0,
        len: count,
    };
    Ok(Read { value, next })
}

// ---- reads of a fixed number of bits

// The next `count` bits, at most 64, as one number.
fn take(bytes: &[u8], c: Cursor, count: u64) -> Result<Read<u64>, Refusal>
    requires { count ≤ 64 }
    ensures value { result ≡ taken bytes.now c count }
    ensures small { IfOk result (λ x. x.value < 2 ^ count) }
{
    let next = skip_bits(bytes, c, count)?;
    let at = c.start + c.pos;
    let value = bits::field::field_of(bytes, at, count);
    Ok(Read { value, next })
}

// The next bits as a number of the type.
fn read_number<T: Number>(bytes: &[u8], c: Cursor) -> Result<Read<T>, Refusal>
    ensures { result ≡ read_lem T.WIDTH T.given bytes.now c }
{
    let got = take(bytes, c, T::WIDTH)?;
    let value = T::of(got.value);
    Ok(Read {
        value,
        next: got.next,
    })
}

pub fn read_bit(bytes: &[u8], c: Cursor) -> Result<Read<bool>, Refusal>
    ensures { result ≡ read_bit_lem bytes.now c }
{
    read_number::<bool>(bytes, c)
}

pub fn read_u8(bytes: &[u8], c: Cursor) -> Result<Read<u8>, Refusal>
    ensures { result ≡ read_u8_lem bytes.now c }
{
    read_number::<u8>(bytes, c)
}

pub fn read_u16(bytes: &[u8], c: Cursor) -> Result<Read<u16>, Refusal>
    ensures { result ≡ read_u16_lem bytes.now c }
{
    read_number::<u16>(bytes, c)
}

pub fn read_u32(bytes: &[u8], c: Cursor) -> Result<Read<u32>, Refusal>
    ensures { result ≡ read_u32_lem bytes.now c }
{
    read_number::<u32>(bytes, c)
}

pub fn read_i32(bytes: &[u8], c: Cursor) -> Result<Read<i32>, Refusal>
    ensures { result ≡ read_i32_lem bytes.now c }
{
    read_number::<i32>(bytes, c)
}

pub fn read_u64(bytes: &[u8], c: Cursor) -> Result<Read<u64>, Refusal>
    ensures { result ≡ read_u64_lem bytes.now c }
{
    read_number::<u64>(bytes, c)
}

// The next `count` bits as one number, the first bit lowest.
pub fn read_bits(bytes: &[u8], c: Cursor, count: u64) -> Result<Read<u64>, Refusal>
    ensures { result ≡ read_bits_lem bytes.now c count }
{
    good_or_refused(bytes, c)?;
    if 64 < count {
        return Err(Refusal::TooMany);
    }
    let next = past(c.len, c.pos, count)?;
    let value = bits::field::field_of(bytes, c.start + c.pos, count);
    Ok(Read { value, next })
}

// ---- reads whose width depends on what is read

// A packed number: groups of seven bits, the lowest first, each under a bit that says whether another follows.
#[tactic(auto, using(crate::proofs::CursorLaws::ways), unfolding(crate::specs::Numbers::packed_answer))]
pub fn read_int_packed(bytes: &[u8], c: Cursor) -> Result<Read<PackedNumber>, Refusal>
    ensures { result ≡ read_int_packed_lem bytes.now c }
{
    good_or_refused(bytes, c)?;
    let pos = c.pos;
    let at = c.start + pos;
    let end = c.start + c.len;
    let found = bits::number::packed_at(bytes, at, end);
    match found {
        Ok(x) => {
            let next = pos + 8 * x.bytes;
            let taken = x.bytes as u32;
            let value = PackedNumber {
                value: x.value,
                bytes: taken,
                padded: x.padded,
            };
            Ok(Read { value, next })
        }
        Err(Broken::Cut(n)) => {
            let stop = pos + 8 * n;
            Err(Refusal::TooFew(stop, c.len, 8))
        }
        Err(Broken::GoesOn) => Err(Refusal::GoesOn(pos)),
        Err(Broken::Overflows) => Err(Refusal::Overflows(pos)),
    }
}

// The logarithm of m to the base 2, rounded down.
fn log2_of(m: u32) -> u64
    requires { 0 < m }
    ensures value { result ≡ log2 m }
    ensures small { result < 32 }
    ensures below { 2 ^ result ≤ m }
{
    (31 - m.leading_zeros()) as u64
}

// The bit at `at`. Compiled into its caller, where a call of `field_of` was left (measured).
#[inline(always)]
fn bit_at(bytes: &[u8], at: u64) -> u64
    requires { at + 1 ≤ 8 * length bytes.now }
    ensures { result ≡ field (num bytes.now) at 1 }
{
    let byte = bits::load::load_bytes(bytes, (at / 8) as usize, 1);
    (byte >> (at % 8)) % 2
}

// An integer below `max`: its low bits, and its top bit only where `max` leaves it open.
#[tactic(auto, using(crate::proofs::CursorLaws::ways), unfolding(crate::specs::Numbers::serialized_at, crate::specs::Numbers::serialized_top))]
pub fn read_serialized_int(bytes: &[u8], c: Cursor, max: u32) -> Result<Read<u32>, Refusal>
    ensures { result ≡ read_serialized_int_lem bytes.now c max }
{
    good_or_refused(bytes, c)?;
    if max == 0 {
        return Err(Refusal::NoMaximum);
    }
    let start = c.start;
    let pos = c.pos;
    let width = log2_of(max);
    let at = past(c.len, pos, width)?;
    let v = bits::field::field_of(bytes, start + pos, width);
    let top = 1u64 << width;
    if max as u64 <= v + top {
        let value = v as u32;
        return Ok(Read { value, next: at });
    }
    let next = past(c.len, at, 1)?;
    let bit = bit_at(bytes, start + at);
    let high = bit << width;
    let value = (v + high) as u32;
    Ok(Read { value, next })
}

// ---- copies

// The next `count` bits to the front of dst, as bytes; the last one's padding is 0.
pub fn copy_bits_to(bytes: &[u8], c: Cursor, count: u64, dst: &mut [u8]) -> Result<u64, Refusal>
    ensures { CopiesBits bytes.now c count dst.old result dst.new }
{
    good_or_refused(bytes, c)?;
    let needed = count.div_ceil(8);
    if (dst.len() as u64) < needed {
        return Err(Refusal::Past(count, bits_of(dst)));
    }
    let next = past(c.len, c.pos, count)?;
    bits::copy::copy_field(bytes, c.start + c.pos, dst, count);
    Ok(next)
}
