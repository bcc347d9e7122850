// The numbers of the vector, normal and rotation readers, in IEEE 754's terms (vrf-bitio/src/lib.rs, decode/geometry.rs).
// The functions here ask for their ranges by a `requires`; the crate geometry calls them with bits that were read.
#![tactic(auto)]

pub mod byte_angles;

ghost use Rattle.std.specs.Prelude.{◌≡◌, ℕ, ◌^◌, ◌<◌, ◌≤◌, true, from_bits};
ghost use Rattle.std.specs.Float.{binary32, binary64};
ghost use Rattle.std.specs.Float.Ieee.{Format};
ghost use Rattle.std.specs.Float.Ieee.Scale.{finite};
ghost use Rattle.bits.specs.TwosComplement.{twos};
ghost use Rattle.floats.specs.Numbers.{quotient, normal_axis_lem, Angle};

// A component of w bits: the integer rounded to binary64 once, and its quotient by the divisor rounded once.
pub fn component(raw: u64, w: u32, divisor: u32) -> f64
    requires { (1 ≤ w) × (w ≤ 63) × (raw < 2 ^ w) }
    ensures { result ≡ quotient (twos w raw) divisor }
{
    std::num::nearest_i64_to_f64(bits::integer::signed(raw, w)) / (divisor as f64)
}

// One axis of a fixed normal.
pub fn normal_axis(k: u32) -> f64
    requires { k < 65536 }
    ensures { result ≡ normal_axis_lem k }
{
    (((k as i32) - 32768) as f64) / 32767.0
}

// k steps of 360 / 2^W degrees. Of a byte: the table's entry, worked out, over 32. Else as steps of 360 / 65,536, which k is of 16 bits;
// the constant is written out, since a division by a number that W gives is made anew for each angle.
pub fn angle<const W: u64>(k: u32) -> f32
    requires width { (8 ≤ W) × (W ≤ 16) }
    requires steps { k < 2 ^ W }
    ensures { Angle W k result }
{
    if W == 8 {
        return (byte_angles::worked_out(k) as f32) / 32.0;
    }
    ((k << (16 - W)) as f32) * (360.0 / 65536.0)
}

// The format of a float that is read as a pattern.
pub trait Pattern {
    ghost format: { Format };

    // The bits of a pattern.
    ghost width: { ℕ };

    // Whether a pattern is that of a finite number: tested before a float is made of it.
    fn is_finite(n: u64) -> bool
        requires { n < 2 ^ width }
        ensures { result ≡ finite (from_bits format n) };

    // A finite pattern as a double: the same number.
    fn double(n: u64) -> f64
        requires bits { n < 2 ^ width }
        requires finite { finite (from_bits format n) ≡ true }
        ensures { result ≡ from_bits format n };
}

impl Pattern for f32 {
    ghost format = { binary32 };

    ghost width = { 32 };

    fn is_finite(n: u64) -> bool {
        n % 0x8000_0000 < 0x7f80_0000
    }

    fn double(n: u64) -> f64 {
        f32::from_bits(n as u32) as f64
    }
}

impl Pattern for f64 {
    ghost format = { binary64 };

    ghost width = { 64 };

    fn is_finite(n: u64) -> bool {
        n % 0x8000_0000_0000_0000 < 0x7ff0_0000_0000_0000
    }

    fn double(n: u64) -> f64 {
        f64::from_bits(n)
    }
}
