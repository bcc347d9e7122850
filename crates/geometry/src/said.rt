// What a refusal says: its number and the values of document 01's table, and where the cursor stands after it. A part that can't be
// read says what the bit reader says.
ghost use Rattle.std.specs.Prelude.{◌≡◌};
ghost use Rattle.bits.specs.Refusals.{refusal};
ghost use Rattle.bitio.specs.Refusals.{saying_of};
ghost use Rattle.geometry.specs.Refusals.{said, stands_after64};

use crate::Refusal;
use bitio::said::Saying;

fn plain(number: u32) -> Saying
    ensures { result ≡ saying_of (refusal number 0 0 0) }
{
    Saying {
        number,
        first: 0,
        second: 0,
        third: 0,
    }
}

pub fn said(why: Refusal) -> Saying
    ensures { result ≡ said why }
{
    match why {
        Refusal::Unread(part) => bitio::said::said(part),
        Refusal::NoScale => plain(11),
        Refusal::NotFinite(_) => plain(12),
        Refusal::NoSuchWidth => plain(13),
    }
}

// Where the cursor that stood at `at` stands after the refusal.
pub fn stands_after(why: Refusal, at: u64) -> u64
    ensures { result ≡ stands_after64 why at }
{
    match why {
        Refusal::Unread(part) => bitio::said::stands_after(part, at),
        Refusal::NoScale => at,
        Refusal::NotFinite(position) => position,
        Refusal::NoSuchWidth => at,
    }
}
