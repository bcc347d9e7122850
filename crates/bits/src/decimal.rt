// Decimals of u32 numbers, written to a buffer.
ghost use Rattle.std.specs.Prelude.{◌≡◌, ◌+◌, ◌≤◌, length};
ghost use Rattle.bits.specs.Runs.{put};
ghost use Rattle.bits.specs.Decimals.{decimal, WritesDecimal};

use crate::digits::decimal_length;

// The digits of n, of which there are k, from byte at of d. The last one is written first.
fn put_digits(d: &mut [u8], at: usize, k: usize, n: u32)
    requires { (k ≡ length (decimal n)) × (at + k ≤ length d.old) }
    ensures { d.new ≡ put d.old at (decimal n) }
{
    let mut v = n;
    for j in (at + 1..at + k).rev() {
        d[j] = (48 + v % 10) as u8;
        v /= 10;
    }
    d[at] = (48 + v) as u8;
}

// The digits of n from byte at of d, and the place after them. Where they don't fit nothing is written.
pub fn write_decimal(d: &mut [u8], at: usize, n: u32) -> usize
    ensures { WritesDecimal d.old at n result d.new }
{
    let k = decimal_length(n);
    let end = at.saturating_add(k);
    if d.len() < k {
        return end;
    }
    if d.len() - k < at {
        return end;
    }
    put_digits(d, at, k, n);
    end
}
