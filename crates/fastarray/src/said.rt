// What an answer says of document 01's refusals: the number, 0 for a body that is read, and the values of its table.
ghost use Rattle.std.specs.Prelude.{◌≡◌};
ghost use Rattle.bits.specs.Refusals.{refusal};
ghost use Rattle.fastarray.specs.Refusals.{said, saying_as};

use crate::{Delta, Refusal};

// The number, and what the buffers need; of the other refusals the three are 0. Numbers stay, since the C interface says them.
#[derive(Clone, Copy)]
pub struct Saying {
    pub number: u32,
    pub deletes: u32,
    pub items: u32,
    pub fields: u32,
}

fn numbers(number: u32, deletes: u32, items: u32, fields: u32) -> Saying
    ensures { result ≡ saying_as (refusal number deletes items fields) }
{
    Saying {
        number,
        deletes,
        items,
        fields,
    }
}

pub fn said(answer: Result<Delta, Refusal>) -> Saying
    ensures { result ≡ said answer }
{
    match answer {
        Ok(_) => numbers(0, 0, 0, 0),
        Err(Refusal::TooLong) => numbers(1, 0, 0, 0),
        Err(Refusal::NotFastArray) => numbers(6, 0, 0, 0),
        Err(Refusal::Short(need)) => numbers(3, need.deletes, need.items, need.fields),
    }
}
