// Signed numbers.
ghost use Rattle.std.specs.Prelude.{◌≡◌, ◌≤◌, ◌<◌, ◌^◌};
ghost use Rattle.bits.specs.TwosComplement.{twos};

// The w bits raw as two's complement.
pub fn signed(raw: u64, w: u32) -> i64
    requires { (1 ≤ w) × (w ≤ 63) × (raw < 2 ^ w) }
    ensures { result ≡ twos w raw }
{
    let half = 1u64 << (w - 1);
    if raw < half {
        raw as i64
    } else {
        ((raw - half) as i64) - (half as i64)
    }
}
