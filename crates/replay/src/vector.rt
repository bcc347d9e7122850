// Kind V: a quantized vector.
use crate::geometric;
use recorded::answers::{Fault, Outcome, Stop};
use recorded::fields::Case;
use recorded::windows;

pub fn replay(out: &impl Print, mut case: Case<'_>) -> Result<Outcome, Stop> {
    let scale = u32::try_from(case.parts.number()?).map_err(|_| Fault::Number)?;
    windows::replay(out, case, |bytes, c| {
        let read = geometry::read_vector_net_quantize(bytes, c, scale);
        geometric::of_vector(read, c.pos)
    })
}
