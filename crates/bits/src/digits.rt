// How many digits the decimal of a number has.
ghost use Rattle.std.specs.Prelude.{◌≡◌};
ghost use Rattle.bits.specs.Decimals.{decimal_length_lem};

// How many digits n has: one, and one more for each comparison that holds. Of three only the first is a branch, so that one digit is
// told by one comparison, and an index, which has four digits at most, by four at most. The library's `ilog10` compares once with a power
// of ten that it reads from a table, which takes more time and instructions (docs/DECISIONS.md, 84).
pub fn decimal_length(n: u32) -> usize
    ensures { result ≡ decimal_length_lem n }
{
    let mut k: usize = 1;
    if 9 < n {
        k = 2 + (99 < n) as usize + (999 < n) as usize;
        if 9999 < n {
            k = 5 + (99999 < n) as usize + (999999 < n) as usize;
            if 9999999 < n {
                k = 8 + (99999999 < n) as usize + (999999999 < n) as usize;
            }
        }
    }
    k
}
