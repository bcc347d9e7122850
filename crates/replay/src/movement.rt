// Kind M: a movement record. Its answer is followed by 20 numbers, all 0 behind a refusal.
use crate::geometric;
use geometry::{Movement, RotatorQuantization, Vector, VectorQuantization};
use recorded::answers::{Answer, Fault, Outcome, Stop};
use recorded::fields::Case;
use recorded::{answers, say};
use std::{fmt, io};

// An answer with its record: sleep, physics, the patterns of the location, the rotation and the linear velocity, then
// whether there is an angular velocity and its patterns, a frame and its number, a handle and its number, and how many of these
// two are padded.
#[derive(Clone, Copy, PartialEq, Eq)]
struct Found {
    answer: Answer,
    record: [u64; 20],
}

fn record_of(m: Movement) -> [u64; 20] {
    let location = m.location;
    let rotation = m.rotation;
    let linear = m.linear;
    let angular = m.angular;
    let frame = m.frame;
    let handle = m.handle;
    let none = Vector {
        x: 0.0,
        y: 0.0,
        z: 0.0,
    };
    let spin = angular.unwrap_or(none);
    [
        u64::from(m.sleep),
        u64::from(m.physics),
        geometric::double_bits(location.x),
        geometric::double_bits(location.y),
        geometric::double_bits(location.z),
        geometric::single_bits(rotation.pitch),
        geometric::single_bits(rotation.yaw),
        geometric::single_bits(rotation.roll),
        geometric::double_bits(linear.x),
        geometric::double_bits(linear.y),
        geometric::double_bits(linear.z),
        u64::from(angular.is_some()),
        geometric::double_bits(spin.x),
        geometric::double_bits(spin.y),
        geometric::double_bits(spin.z),
        u64::from(frame.is_some()),
        u64::from(frame.unwrap_or(0)),
        u64::from(handle.is_some()),
        u64::from(handle.unwrap_or(0)),
        u64::from(m.padded),
    ]
}

fn made(answer: Answer, record: [u64; 20]) -> Found {
    Found { answer, record }
}

fn read(bytes: &[u8], bits: u64, width: RotatorQuantization, scale: VectorQuantization) -> Found {
    let moved = geometry::read_rep_movement(bytes, bits, width, scale);
    match moved {
        Ok(m) => made(answers::accepted(0, m.next), record_of(m.value)),
        Err(r) => made(geometric::refused(r, 0), [0; 20]),
    }
}

impl fmt::Display for Found {
    fn fmt<W: fmt::Write>(&self, f: &mut fmt::Formatter<W>) -> fmt::Result {
        let Found { answer, record } = *self;
        write!(f, "{answer} record")?;
        for number in record {
            write!(f, " {number:016x}")?;
        }
        Ok(())
    }
}

fn judge(out: &impl Print, id: &[u8], expected: Found, got: Found) -> io::Result<Outcome> {
    if expected == got {
        return Ok(Outcome::Same);
    }
    say::case(out, id)?;
    println!(out; "{expected}, got {got}")?;
    Ok(Outcome::Differs)
}

// A scale or width that isn't there is one more that isn't taken.
fn scale_of(number: Result<u64, Fault>) -> Result<VectorQuantization, Fault> {
    match number {
        Ok(1) => Ok(VectorQuantization::RoundWholeNumber),
        Ok(10) => Ok(VectorQuantization::RoundOneDecimal),
        Ok(100) => Ok(VectorQuantization::RoundTwoDecimals),
        _ => Err(Fault::Number),
    }
}

fn width_of(number: Result<u64, Fault>) -> Result<RotatorQuantization, Fault> {
    match number {
        Ok(8) => Ok(RotatorQuantization::ByteComponents),
        Ok(16) => Ok(RotatorQuantization::ShortComponents),
        _ => Err(Fault::Number),
    }
}

pub fn replay(out: &impl Print, case: Case<'_>) -> Result<Outcome, Stop> {
    let mut parts = case.parts;
    let scale = scale_of(parts.number())?;
    let width = width_of(parts.number())?;
    let bits = parts.number()?;
    let bytes = parts.run()?;
    let answer = answers::recorded(&mut parts)?;
    let expected = made(answer, parts.numbers()?);
    parts.end()?;
    Ok(judge(out, case.id, expected, read(bytes, bits, width, scale))?)
}
