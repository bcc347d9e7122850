// Kind G: a fixed number of bits.
use crate::answers::{Outcome, Stop};
use crate::fields::Case;
use crate::{answers, windows};

pub fn replay(out: &impl Print, mut case: Case<'_>) -> Result<Outcome, Stop> {
    let count = case.parts.number()?;
    windows::replay(out, case, |bytes, c| {
        let read = bitio::read_bits(bytes, c, count);
        match read {
            Ok(x) => answers::accepted(x.value, x.next),
            Err(r) => answers::refused(r, c.pos),
        }
    })
}
