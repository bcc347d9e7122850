// Movement records.
ghost use Rattle.std.specs.Prelude.{◌≡◌};
ghost use Rattle.geometry.specs.Rotations.{rotation_at};
ghost use Rattle.geometry.specs.Movements.{width_of, scale_of, flags_at, pose_at, spin_at, flagged_at, how_many_lem, extras_at, movement, movement_at};

use crate::{
    Movement, Refusal, Rotation, RotatorQuantization, Vector, VectorQuantization, rotations,
    vectors,
};
use bitio::{Cursor, Read};

// The four bits that a record starts with.
#[derive(Clone, Copy)]
pub struct Flags {
    pub sleep: bool,
    pub physics: bool,
    pub frame: bool,
    pub handle: bool,
}

// What every movement has.
#[derive(Clone, Copy)]
pub struct Pose {
    pub location: Vector,
    pub rotation: Rotation,
    pub linear: Vector,
}

// A packed number that a flag announces, and whether it is padded.
#[derive(Clone, Copy)]
pub struct Flagged {
    pub number: Option<u32>,
    pub padded: bool,
}

// What the flags announce.
#[derive(Clone, Copy)]
pub struct Extras {
    pub angular: Option<Vector>,
    pub frame: Option<u32>,
    pub handle: Option<u32>,
    // How many of these two are padded.
    pub padded: u32,
}

// One after another: where there are fewer than four, this says which is refused.
fn single_flags(bytes: &[u8], c: Cursor) -> Result<Read<Flags>, Refusal>
    ensures { result ≡ flags_at bytes.now c }
{
    let sleep = bitio::read_bit(bytes, c)?;
    let physics = bitio::read_bit(
        bytes,
        Cursor {
            pos: sleep.next,
            ..c
        },
    )?;
    let frame = bitio::read_bit(
        bytes,
        Cursor {
            pos: physics.next,
            ..c
        },
    )?;
    let handle = bitio::read_bit(
        bytes,
        Cursor {
            pos: frame.next,
            ..c
        },
    )?;
    let value = Flags {
        sleep: sleep.value,
        physics: physics.value,
        frame: frame.value,
        handle: handle.value,
    };
    Ok(Read {
        value,
        next: handle.next,
    })
}

fn read_flags(bytes: &[u8], c: Cursor) -> Result<Read<Flags>, Refusal>
    ensures { result ≡ flags_at bytes.now c }
{
    let Ok(next) = bitio::skip_bits(bytes, c, 4) else {
        return single_flags(bytes, c);
    };
    let first = c.start + c.pos;
    let four = bits::field::field_at(bytes, first, 4);
    let sleep = four % 2 == 1;
    let physics = four / 2 % 2 == 1;
    let frame = four / 4 % 2 == 1;
    let handle = four / 8 % 2 == 1;
    let value = Flags {
        sleep,
        physics,
        frame,
        handle,
    };
    Ok(Read { value, next })
}

// A function, since tools/audit reads no method of a type that callers can name.
fn scale_of(q: VectorQuantization) -> u32
    ensures { result ≡ scale_of q }
{
    match q {
        VectorQuantization::RoundWholeNumber => 1,
        VectorQuantization::RoundOneDecimal => 10,
        VectorQuantization::RoundTwoDecimals => 100,
    }
}

fn read_rotation(bytes: &[u8], c: Cursor, q: RotatorQuantization) -> Result<Read<Rotation>, Refusal>
    ensures { result ≡ rotation_at bytes.now (width_of q) c }
{
    match q {
        RotatorQuantization::ByteComponents => rotations::read::<8>(bytes, c),
        RotatorQuantization::ShortComponents => rotations::read::<16>(bytes, c),
    }
}

fn read_pose(
    bytes: &[u8],
    c: Cursor,
    rotation: RotatorQuantization,
    location: VectorQuantization,
) -> Result<Read<Pose>, Refusal>
    ensures { result ≡ pose_at bytes.now rotation location c }
{
    let place = vectors::quantized(bytes, c, scale_of(location))?;
    let behind = Cursor {
        pos: place.next,
        ..c
    };
    let turn = read_rotation(bytes, behind, rotation)?;
    let last = Cursor {
        pos: turn.next,
        ..c
    };
    let linear = vectors::quantized(bytes, last, 1)?;
    let value = Pose {
        location: place.value,
        rotation: turn.value,
        linear: linear.value,
    };
    Ok(Read {
        value,
        next: linear.next,
    })
}

// The angular velocity, if there is one.
fn read_spin(bytes: &[u8], c: Cursor, physics: bool) -> Result<Read<Option<Vector>>, Refusal>
    ensures { result ≡ spin_at bytes.now physics c }
{
    if !physics {
        return Ok(Read {
            value: None,
            next: c.pos,
        });
    }
    let v = vectors::quantized(bytes, c, 1)?;
    Ok(Read {
        value: Some(v.value),
        next: v.next,
    })
}

// A packed number, if there is one.
fn read_number(bytes: &[u8], c: Cursor, there: bool) -> Result<Read<Flagged>, Refusal>
    ensures { result ≡ flagged_at bytes.now there c }
{
    if !there {
        let value = Flagged {
            number: None,
            padded: false,
        };
        return Ok(Read { value, next: c.pos });
    }
    let n = bitio::read_int_packed(bytes, c)?;
    let value = Flagged {
        number: Some(n.value.value),
        padded: n.value.padded,
    };
    Ok(Read {
        value,
        next: n.next,
    })
}

// How many of the two hold.
fn how_many(one: bool, other: bool) -> u32
    ensures { result ≡ how_many_lem one other }
{
    one as u32 + other as u32
}

fn read_extras(bytes: &[u8], c: Cursor, announced: Flags) -> Result<Read<Extras>, Refusal>
    ensures { result ≡ extras_at bytes.now announced.physics announced.frame announced.handle c }
{
    let spin = read_spin(bytes, c, announced.physics)?;
    let behind = Cursor {
        pos: spin.next,
        ..c
    };
    let frame = read_number(bytes, behind, announced.frame)?;
    let last = Cursor {
        pos: frame.next,
        ..c
    };
    let handle = read_number(bytes, last, announced.handle)?;
    let value = Extras {
        angular: spin.value,
        frame: frame.value.number,
        handle: handle.value.number,
        padded: how_many(frame.value.padded, handle.value.padded),
    };
    Ok(Read {
        value,
        next: handle.next,
    })
}

fn whole(f: Flags, p: Pose, x: Extras) -> Movement
    ensures { result ≡ movement f p x }
{
    Movement {
        location: p.location,
        rotation: p.rotation,
        linear: p.linear,
        angular: x.angular,
        sleep: f.sleep,
        physics: f.physics,
        frame: x.frame,
        handle: x.handle,
        padded: x.padded,
    }
}

// The movement record at a cursor.
pub fn read_record(
    bytes: &[u8],
    c: Cursor,
    rotation: RotatorQuantization,
    location: VectorQuantization,
) -> Result<Read<Movement>, Refusal>
    ensures { result ≡ movement_at bytes.now rotation location c }
{
    let f = read_flags(bytes, c)?;
    let p = read_pose(bytes, Cursor { pos: f.next, ..c }, rotation, location)?;
    let x = read_extras(bytes, Cursor { pos: p.next, ..c }, f.value)?;
    Ok(Read {
        value: whole(f.value, p.value, x.value),
        next: x.next,
    })
}
