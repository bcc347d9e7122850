// Kind L: schema and declared tables, accepted or refused 2.
use recorded::answers::{Fault, Outcome, Stop};
use recorded::fields::Case;
use recorded::{lists, say};
use std::{fmt, io};

// Our answer: 0 for accepted tables, or the refusal's number.
fn answer(
    rows: &[u8],
    levels: u32,
    root: u32,
    names: &[u8],
    declared: &[u8],
    declared_names: &[u8],
) -> u64 {
    let mut row_numbers = [0u32; lists::ROW_ROOM];
    let mut declared_numbers = [0u32; lists::DECLARED_ROOM];
    let row_list = lists::unpack(rows, &mut row_numbers);
    let declared_list = lists::unpack(declared, &mut declared_numbers);
    let accepted = schema::layout::check_tables(
        row_list,
        levels,
        root,
        names,
        declared_list,
        declared_names,
    );
    u64::from(schema::said::tables_number(accepted))
}

// An answer in words.
#[derive(Clone, Copy, PartialEq, Eq)]
struct Number(u64);

impl fmt::Display for Number {
    fn fmt<W: fmt::Write>(&self, f: &mut fmt::Formatter<W>) -> fmt::Result {
        let number = self.0;
        if number == 0 {
            write!(f, "accepted")
        } else {
            write!(f, "refusal {number}")
        }
    }
}

fn judge(out: &impl Print, id: &[u8], expected: Number, got: Number) -> io::Result<Outcome> {
    if expected == got {
        return Ok(Outcome::Same);
    }
    say::case(out, id)?;
    println!(out; "{expected}, got {got}")?;
    Ok(Outcome::Differs)
}

pub fn replay(out: &impl Print, case: Case<'_>) -> Result<Outcome, Stop> {
    let mut parts = case.parts;
    let levels = parts.number()?;
    let root = parts.number()?;
    let rows = parts.run()?;
    let names = parts.run()?;
    let declared = parts.run()?;
    let declared_names = parts.run()?;
    let expected = parts.number()?;
    parts.end()?;
    lists::check_tables(rows, declared)?;
    let levels = u32::try_from(levels).map_err(|_| Fault::Number)?;
    let root = u32::try_from(root).map_err(|_| Fault::Number)?;
    let got = answer(rows, levels, root, names, declared, declared_names);
    Ok(judge(out, case.id, Number(expected), Number(got))?)
}
