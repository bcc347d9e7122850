// What a refusal says: its number and the values of document 01's table, and where the cursor stands after it.
ghost use Rattle.std.specs.Prelude.{◌≡◌};
ghost use Rattle.bits.specs.Refusals.{refusal};
ghost use Rattle.bitio.specs.Refusals.{saying_of, said, stands_after64};

use crate::Refusal;

// The number, and the values in the table's order; what it doesn't name is 0.
#[derive(Clone, Copy)]
pub struct Saying {
    pub number: u32,
    pub first: u64,
    pub second: u64,
    pub third: u64,
}

fn numbers(number: u32, first: u64, second: u64, third: u64) -> Saying
    ensures { result ≡ saying_of (refusal number first second third) }
{
    Saying {
        number,
        first,
        second,
        third,
    }
}

pub fn said(why: Refusal) -> Saying
    ensures { result ≡ said why }
{
    match why {
        Refusal::TooLong => numbers(1, 0, 0, 0),
        Refusal::TooFew(position, length, asked) => numbers(7, position, length, asked),
        Refusal::GoesOn(start) => numbers(8, start, 0, 0),
        Refusal::Overflows(start) => numbers(9, start, 0, 0),
        Refusal::NoMaximum => numbers(10, 0, 0, 0),
        Refusal::TooMany => numbers(13, 0, 0, 0),
        Refusal::Past(asked, available) => numbers(14, asked, available, 0),
    }
}

// Where the cursor that stood at `at` stands after the refusal. The 40 bits of a packed number lie in its window, so that no sum
// wraps where a call refused.
pub fn stands_after(why: Refusal, at: u64) -> u64
    ensures { result ≡ stands_after64 why at }
{
    match why {
        Refusal::TooLong => at,
        Refusal::TooFew(position, _, _) => position,
        Refusal::GoesOn(start) => std::num::wrapping_add_u64(start, 40),
        Refusal::Overflows(start) => std::num::wrapping_add_u64(start, 40),
        Refusal::NoMaximum => at,
        Refusal::TooMany => at,
        Refusal::Past(_, _) => at,
    }
}
