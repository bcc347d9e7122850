// Fields of at most 64 bits that start at any bit.
ghost use Rattle.std.specs.Prelude.{◌≡◌, ◌+◌, ◌*◌, ◌≤◌, ◌<◌, length};
ghost use Rattle.bits.specs.Bits.{num, field};
ghost use Rattle.bits.specs.Sizes.{longest_window};

use crate::load::{load, load_bytes, load_two};

// count bits from bit at.
pub fn field_at(s: &[u8], at: u64, count: u64) -> u64
    requires { (at + count ≤ 8 * length s.now) × (0 < count) × (count ≤ 64) }
    ensures { result ≡ field (num s.now) at count }
{
    let i = (at / 8) as usize;
    let off = at % 8;
    let low = load(s, i) >> off;
    let mask = 0xffff_ffff_ffff_ffff >> (64 - count);
    if off + count <= 64 {
        low & mask
    } else {
        let high = load_bytes(s, i + 8, 1);
        (low | (high << (64 - off))) & mask
    }
}

// count bits from bit at; none: 0.
pub fn field_of(s: &[u8], at: u64, count: u64) -> u64
    requires { (at + count ≤ 8 * length s.now) × (count ≤ 64) }
    ensures { result ≡ field (num s.now) at count }
{
    if count == 0 {
        0
    } else {
        field_at(s, at, count)
    }
}

// The byte from bit at. This and the two below are `field_at` of their counts, each in the fewest loads that hold so many bits: the place of
// the bits decides between other loads in each, so that one function of the count has a branch for every count.
pub fn byte_at(s: &[u8], at: u64) -> u64
    requires { at + 8 ≤ 8 * length s.now }
    ensures { result ≡ field (num s.now) at 8 }
{
    let i = (at / 8) as usize;
    let off = at % 8;
    if off == 0 {
        load_bytes(s, i, 1)
    } else {
        (load_two(s, i) >> off) % 256
    }
}

// The two bytes from bit at.
pub fn two_bytes_at(s: &[u8], at: u64) -> u64
    requires { (at + 16 ≤ 8 * length s.now) × (at ≤ longest_window) }
    ensures { result ≡ field (num s.now) at 16 }
{
    let i = (at / 8) as usize;
    let last = ((at + 15) / 8) as usize;
    let low = load_bytes(s, i, 2);
    let high = load_bytes(s, last, 1);
    let three = low + 0x1_0000 * high;
    let off = at % 8;
    (three >> off) % 65536
}

// The word from bit at.
pub fn word_at(s: &[u8], at: u64) -> u64
    requires { at + 64 ≤ 8 * length s.now }
    ensures { result ≡ field (num s.now) at 64 }
{
    let i = (at / 8) as usize;
    let off = at % 8;
    let low = load_bytes(s, i, 8);
    if off == 0 {
        low
    } else {
        (low >> off) | (load_bytes(s, i + 8, 1) << (64 - off))
    }
}
