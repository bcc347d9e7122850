// What an answer says of document 01's refusals: the number, 0 where nothing is refused, and the values of its table.
ghost use Rattle.std.specs.Prelude.{◌≡◌};
ghost use Rattle.schema.specs.Refusals.{said, tables_number_lem};

use crate::Short;

// The number, which C is handed, and what the buffers need: u32 of rows, bytes of names.
#[derive(Clone, Copy)]
pub struct Saying {
    pub number: u32,
    pub rows: usize,
    pub names: usize,
}

// Of buffers that were to be filled.
pub fn said(answer: Result<(), Short>) -> Saying
    ensures { result ≡ said answer }
{
    match answer {
        Ok(()) => Saying {
            number: 0,
            rows: 0,
            names: 0,
        },
        Err(Short { rows, names }) => Saying {
            number: 3,
            rows,
            names,
        },
    }
}

// Of tables that keep their layout, or break it.
pub fn tables_number(kept: bool) -> u32
    ensures { result ≡ tables_number_lem kept }
{
    if kept { 0 } else { 2 }
}
