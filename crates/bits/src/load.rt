// Loads of whole bytes as one number, the first byte lowest.
ghost use Rattle.std.specs.Prelude.{◌≡◌, ◌+◌, ◌*◌, ◌≤◌, ◌<◌, length};
ghost use Rattle.bits.specs.Bits.{num, field};

// The n bytes from byte i, at most 8. Compiled into each caller, so that a number of bytes that stands there makes one load.
#[inline(always)]
pub fn load_bytes(s: &[u8], i: usize, n: usize) -> u64
    requires { (i + n ≤ length s.now) × (n ≤ 8) }
    ensures { result ≡ field (num s.now) (8 * i) (8 * n) }
{
    let mut value = 0;
    for j in 0..n {
        value += (s[i + j] as u64) << (8 * j);
    }
    value
}

// The 2 bytes from byte i. A function of its own, so that they are one load before a caller's branches share what they have in common
// (measured: without it the first byte of a packed number takes two loads, 19 % more instructions).
pub fn load_two(s: &[u8], i: usize) -> u64
    requires { i + 2 ≤ length s.now }
    ensures { result ≡ field (num s.now) (8 * i) 16 }
{
    load_bytes(s, i, 2)
}

// The 8 bytes from byte i, zeros past the end, with fewer than 8 left: the last 8 bytes, shifted, where there are 8.
fn load_tail(s: &[u8], i: usize) -> u64
    requires { (i < length s.now) × (length s.now < i + 8) }
    ensures { result ≡ field (num s.now) (8 * i) 64 }
{
    let n = s.len();
    if 8 <= n {
        load_bytes(s, n - 8, 8) >> (8 * (i + 8 - n))
    } else {
        load_bytes(s, i, n - i)
    }
}

// The 8 bytes from byte i, zeros past the end.
pub fn load(s: &[u8], i: usize) -> u64
    requires { i < length s.now }
    ensures { result ≡ field (num s.now) (8 * i) 64 }
{
    if i + 8 <= s.len() {
        load_bytes(s, i, 8)
    } else {
        load_tail(s, i)
    }
}
