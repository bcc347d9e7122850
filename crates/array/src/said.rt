// What an answer says of document 01's refusals: the number, 0 for an accepted call, and the values of its table.
ghost use Rattle.std.specs.Prelude.{◌≡◌};
ghost use Rattle.array.specs.Refusals.{said, pairs_said_lem, merge_number_lem};

use crate::{ArrayDecodeStats, Extent, Overflow, PairRefusal, Refusal, Walked};

// The number, and what the outputs need: `Saying<Extent>` of a struct or exact walk, `Saying<u32>`, the pairs, of an object walk.
// Where the number isn't 3 the need is nothing.
#[derive(Clone, Copy)]
pub struct Saying<N> {
    pub number: u32,
    pub need: N,
}

const NOTHING: Extent = Extent {
    leaves: 0,
    path_bytes: 0,
    payload_bytes: 0,
};

pub fn said(answer: Result<Walked<Extent>, Refusal>) -> Saying<Extent>
    ensures { result ≡ said answer }
{
    match answer {
        Ok(_) => Saying {
            number: 0,
            need: NOTHING,
        },
        Err(Refusal::TooLong) => Saying {
            number: 1,
            need: NOTHING,
        },
        Err(Refusal::BrokenTables) => Saying {
            number: 2,
            need: NOTHING,
        },
        Err(Refusal::Short(need)) => Saying { number: 3, need },
    }
}

pub fn pairs_said(answer: Result<Walked<u32>, PairRefusal>) -> Saying<u32>
    ensures { result ≡ pairs_said_lem answer }
{
    match answer {
        Ok(_) => Saying { number: 0, need: 0 },
        Err(PairRefusal::TooLong) => Saying { number: 1, need: 0 },
        Err(PairRefusal::Short(need)) => Saying { number: 3, need },
    }
}

// Of a merge, whose refusal has the left counters beside its number: the answer has them.
pub fn merge_number(answer: Result<ArrayDecodeStats, Overflow>) -> u32
    ensures { result ≡ merge_number_lem answer }
{
    match answer {
        Ok(_) => 0,
        Err(_) => 4,
    }
}
