// Kind R: a rotation.
use crate::geometric;
use geometry::Rotation;
use recorded::answers::{Answer, Fault, Outcome, Stop};
use recorded::fields::Case;
use recorded::{answers, windows};

fn accepted(v: Rotation, next: u64) -> Answer {
    let pitch = geometric::single_bits(v.pitch);
    let yaw = geometric::single_bits(v.yaw);
    let roll = geometric::single_bits(v.roll);
    answers::answer_of(0, pitch, yaw, roll, next)
}

pub fn replay(out: &impl Print, mut case: Case<'_>) -> Result<Outcome, Stop> {
    let width = u32::try_from(case.parts.number()?).map_err(|_| Fault::Number)?;
    windows::replay(out, case, |bytes, c| {
        let read = geometry::read_rotation(bytes, c, width);
        match read {
            Ok(v) => accepted(v.value, v.next),
            Err(r) => geometric::refused(r, c.pos),
        }
    })
}
