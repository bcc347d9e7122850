// Kind N: a fixed normal.
use crate::geometric;
use recorded::answers::{Outcome, Stop};
use recorded::fields::Case;
use recorded::windows;

pub fn replay(out: &impl Print, case: Case<'_>) -> Result<Outcome, Stop> {
    windows::replay(out, case, |bytes, c| {
        let read = geometry::read_fixed_vector_normal(bytes, c);
        geometric::of_vector(read, c.pos)
    })
}
