// Runs of bits copied to a buffer as bytes, by words; the last byte's padding is 0.
ghost use Rattle.std.specs.Prelude.{◌≡◌, ◌+◌, ◌*◌, ◌/◌, ◌≤◌, ◌<◌, ◌^◌, length};
ghost use Rattle.bits.specs.Bits.{num, field};
ghost use Rattle.bits.specs.Runs.{bytes_of, bytes_for, put};

use crate::field::{field_of, word_at};

// The word w at byte i of d.
pub fn store64(d: &mut [u8], i: usize, w: u64)
    requires { i + 8 ≤ length d.old }
    ensures { d.new ≡ put d.old i (bytes_of 8 w) }
{
    d[i..i + 8].copy_from_slice(&w.to_le_bytes());
}

// n bytes of w from byte i of d.
pub fn store_tail(d: &mut [u8], i: usize, n: usize, w: u64)
    requires { i + n ≤ length d.old }
    ensures { d.new ≡ put d.old i (bytes_of n w) }
{
    let mut v = w;
    for x in &mut d[i..i + n] {
        *x = (v % 256) as u8;
        v /= 256;
    }
}

// The whole words of count bits from bit at, to the front of d.
fn copy_words(s: &[u8], at: u64, d: &mut [u8], count: u64)
    requires { (at + count ≤ 8 * length s.now) × (at + count < 2 ^ 64) × (bytes_for count ≤ length d.old) }
    ensures { d.new ≡ put d.old 0 (bytes_of (8 * (count / 64)) (field (num s.now) at count)) }
{
    for k in 0..count / 64 {
        store64(d, (8 * k) as usize, word_at(s, at + 64 * k));
    }
}

// count bits from bit at, to the front of d.
pub fn copy_field(s: &[u8], at: u64, d: &mut [u8], count: u64)
    requires { (at + count ≤ 8 * length s.now) × (at + count < 2 ^ 64) × (bytes_for count ≤ length d.old) }
    ensures { d.new ≡ put d.old 0 (bytes_of (bytes_for count) (field (num s.now) at count)) }
{
    copy_words(s, at, d, count);
    let words = count / 64;
    let rest = count % 64;
    let w = field_of(s, at + 64 * words, rest);
    store_tail(d, (8 * words) as usize, ((rest + 7) / 8) as usize, w);
}
