// Packed numbers.
ghost use Rattle.std.specs.Prelude.{◌≡◌, ◌+◌, ◌*◌, ◌≤◌, ◌<◌, ◌^◌, length, MatchResult};
ghost use Rattle.bits.specs.Bits.{num, field};
ghost use Rattle.bits.specs.Packed.{after, packed_from, packed, most_bytes};
ghost use Rattle.bits.specs.Padded.{padded, found};
ghost use Rattle.bits.specs.declared.Broken.TheVariants.{Cut};

use crate::field::byte_at;
use crate::{Broken, Found};

// The packed number at bit at of the bits up to end. A first byte that ends it is the usual case.
pub fn packed_at(s: &[u8], at: u64, end: u64) -> Result<Found, Broken>
    requires { (at ≤ end) × (end ≤ 8 * length s.now) }
    ensures { result ≡ found (packed (num s.now) end at) }
{
    let b = next_byte(s, at, end, 0)?;
    if b % 2 == 0 {
        return Ok(Found {
            value: (b / 2) as u32,
            bytes: 1,
            padded: false,
        });
    }
    packed_more(s, at, end, b / 2)
}

// The packed number at bit at whose first byte holds low and says that another follows.
fn packed_more(s: &[u8], at: u64, end: u64, low: u64) -> Result<Found, Broken>
    requires { (at + 8 ≤ end) × (end ≤ 8 * length s.now) × (low < 2 ^ 7) }
    ensures { result ≡ found (after 1 low (packed_from 3 (num s.now) end (at + 8))) }
{
    let mut value = low;
    for taken in 1..4u64 {
        let b = next_byte(s, at + 8 * taken, end, taken)?;
        let weight = 1u64 << (7 * taken);
        value += b / 2 * weight;
        if b % 2 == 0 {
            return Ok(Found {
                value: value as u32,
                bytes: taken + 1,
                padded: value < weight,
            });
        }
    }
    packed_fifth(s, at + 32, end, value)
}

// The same from its fifth byte, at bit at, with four bytes before it whose groups are worth value.
fn packed_fifth(s: &[u8], at: u64, end: u64, value: u64) -> Result<Found, Broken>
    requires { (at ≤ end) × (end ≤ 8 * length s.now) × (value < 2 ^ 28) }
    ensures { result ≡ found (after 4 value (packed_from 0 (num s.now) end at)) }
{
    let b = next_byte(s, at, end, 4)?;
    if b % 2 == 1 {
        return Err(Broken::GoesOn);
    }
    let group = b / 2;
    if 15 < group {
        return Err(Broken::Overflows);
    }
    let top = 0x1000_0000 * group;
    let whole = (value + top) as u32;
    Ok(Found {
        value: whole,
        bytes: 5,
        padded: whole < 0x1000_0000,
    })
}

// The byte from bit at, unless the bits up to end are cut inside of it, after so many whole ones of the number. Compiled into each caller
// before anything else, so that no Result is made (measured).
#[inline(always)]
fn next_byte(s: &[u8], at: u64, end: u64, taken: u64) -> Result<u64, Broken>
    requires { (at ≤ end) × (end ≤ 8 * length s.now) }
    ensures { MatchResult result (λ b. (at + 8 ≤ end) × (b ≡ field (num s.now) at 8)) (λ why. (end < at + 8) × (why ≡ Cut taken)) }
{
    if end - at < 8 {
        return Err(Broken::Cut(taken));
    }
    Ok(byte_at(s, at))
}

// Whether a number of n bytes with this value is padded: fewer would do. Two bytes are the usual case of more than one.
pub fn is_padded(value: u32, n: u64) -> bool
    requires { n ≤ most_bytes }
    ensures { result ≡ padded value n }
{
    if n == 2 {
        return value < 128;
    }
    1 < n && (value as u64) < 1 << (7 * (n - 1))
}
