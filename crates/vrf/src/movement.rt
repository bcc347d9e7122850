// A movement record: each number with its name, floats as pattern and value.
use geometry::{Movement, Rotation, RotatorQuantization, Vector, VectorQuantization};
use std::io;
use tell::{refusals, say, say_floats};

fn say_flag(out: &impl Print, name: &str, set: bool) -> io::Result<()> {
    let answer = if set { "yes" } else { "no" };
    println!(out; "{name:<24}{answer}")
}

fn say_number(out: &impl Print, name: &str, n: Option<u32>) -> io::Result<()> {
    match n {
        None => println!(out; "{name:<24}absent"),
        Some(x) => println!(out; "{name:<24}{x}"),
    }
}

fn say_location(out: &impl Print, v: Vector) -> io::Result<()> {
    say_floats::named_double(out, "location x", v.x)?;
    say_floats::named_double(out, "location y", v.y)?;
    say_floats::named_double(out, "location z", v.z)
}

fn say_rotation(out: &impl Print, v: Rotation) -> io::Result<()> {
    say_floats::named_single(out, "pitch", v.pitch)?;
    say_floats::named_single(out, "yaw", v.yaw)?;
    say_floats::named_single(out, "roll", v.roll)
}

fn say_linear(out: &impl Print, v: Vector) -> io::Result<()> {
    say_floats::named_double(out, "linear velocity x", v.x)?;
    say_floats::named_double(out, "linear velocity y", v.y)?;
    say_floats::named_double(out, "linear velocity z", v.z)
}

fn say_angular(out: &impl Print, spin: Option<Vector>) -> io::Result<()> {
    match spin {
        None => out.println("angular velocity        absent"),
        Some(v) => {
            say_floats::named_double(out, "angular velocity x", v.x)?;
            say_floats::named_double(out, "angular velocity y", v.y)?;
            say_floats::named_double(out, "angular velocity z", v.z)
        }
    }
}

fn say_record(out: &impl Print, m: Movement) -> io::Result<()> {
    let angular = m.angular;
    let frame = m.frame;
    let handle = m.handle;
    say_flag(out, "sleep", m.sleep)?;
    say_flag(out, "physics", m.physics)?;
    say_location(out, m.location)?;
    say_rotation(out, m.rotation)?;
    say_linear(out, m.linear)?;
    say_angular(out, angular)?;
    say_number(out, "server frame", frame)?;
    say_number(out, "physics handle", handle)?;
    say::named(out, "padded numbers", u64::from(m.padded))
}

pub fn record(
    out: &impl Print,
    err: &impl Print,
    location: VectorQuantization,
    rotation: RotatorQuantization,
    bytes: &[u8],
    bits: u32,
) -> io::Result<()> {
    let read = geometry::read_rep_movement(bytes, u64::from(bits), rotation, location);
    match read {
        Ok(m) => {
            say_record(out, m.value)?;
            let used = m.next;
            println!(out; "verdict: a whole movement record; it takes {used} bits of {bits}")
        }
        Err(r) => {
            refusals::unmoved(err, r);
            Ok(())
        }
    }
}
