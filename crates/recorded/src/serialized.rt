// Kind I: a serialized integer.
use crate::answers::{Fault, Outcome, Stop};
use crate::fields::Case;
use crate::{answers, windows};

pub fn replay(out: &impl Print, mut case: Case<'_>) -> Result<Outcome, Stop> {
    let maximum = u32::try_from(case.parts.number()?).map_err(|_| Fault::Number)?;
    windows::replay(out, case, |bytes, c| {
        let read = bitio::read_serialized_int(bytes, c, maximum);
        match read {
            Ok(x) => {
                let wide = x.value as u64;
                answers::accepted(wide, x.next)
            }
            Err(r) => answers::refused(r, c.pos),
        }
    })
}
