// Floats, as their bit pattern and in decimals. There is no printing of floats below this, so the decimals are made here, out
// of the pattern: rounded to thousandths, halves up, which shows each vector of scale 1, 10 or 100 as it was sent. The pattern
// is exact. A value of 2^53 or more has no decimals here.
ghost use Rattle.std.specs.Prelude.{◌≤◌};

use crate::say;
use std::convert::AsSlice;
use std::io;
use words::{double_bits, single_bits};

fn say_thousandths(out: &impl Print, x: u64) -> io::Result<()> {
    print!(out; "{}.{:03}", x / 1000, x % 1000)
}

// digits / 2^low.
fn say_quotient(out: &impl Print, digits: u64, low: u64) -> io::Result<()>
    requires { digits ≤ 9007199254740992 }
{
    if 63 < low {
        return say_thousandths(out, 0);
    }
    let unit = 1u64 << low;
    say_thousandths(out, (1000 * digits + unit / 2) >> low)
}

// A float of this fraction and exponent field, where `bias` is the field of the values that are their digits.
fn say_float(
    out: &impl Print,
    negative: bool,
    fraction: u64,
    hidden: u64,
    exponent: u64,
    bias: u64,
) -> io::Result<()>
    requires { (fraction ≤ 4503599627370495) × (hidden ≤ 4503599627370496) × (1 ≤ bias) }
{
    if negative {
        print!(out; "-")?;
    }
    if bias < exponent {
        return print!(out; "2^53 or more");
    }
    if exponent == 0 {
        return say_quotient(out, fraction, bias - 1);
    }
    say_quotient(out, hidden + fraction, bias - exponent)
}

// A line with a name, the pattern and the value.
pub fn named_double(out: &impl Print, name: impl AsSlice<u8> + Drop, x: f64) -> io::Result<()> {
    let bits = double_bits(x);
    let fraction = bits % 0x10_0000_0000_0000;
    let exponent = bits / 0x10_0000_0000_0000 % 2048;
    say::left(out, name.as_slice(), 24)?;
    print!(out; "{bits:016x}  ")?;
    say_float(
        out,
        0x8000_0000_0000_0000 <= bits,
        fraction,
        0x10_0000_0000_0000,
        exponent,
        1075,
    )?;
    out.println("")
}

pub fn named_single(out: &impl Print, name: impl AsSlice<u8> + Drop, x: f32) -> io::Result<()> {
    let bits = u64::from(single_bits(x));
    let fraction = bits % 0x80_0000;
    let exponent = bits / 0x80_0000 % 256;
    say::left(out, name.as_slice(), 24)?;
    print!(out; "{bits:08x}          ")?;
    say_float(out, 0x8000_0000 <= bits, fraction, 0x80_0000, exponent, 150)?;
    out.println("")
}
