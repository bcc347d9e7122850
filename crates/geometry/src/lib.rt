// Vectors, normals, rotations and movement records (vrf-bitio/src/lib.rs, decode/geometry.rs, types.rs).
//
//     vector   = header of 7 bits (six of width w, then e) and three components
//                w > 0: signed, w bits each, over the scale where e is set; one read where 64 bits hold all three
//                w = 0: floats, of 64 bits where e is set, else of 32
//     normal   = three times 16 bits k, as (k - 32768) / 32767
//     rotation = for each axis a bit, and behind a set one k of 8 or 16 bits, as k turns of 360 / 2^width degrees;
//                of 8 bits that is 45 k thirty-seconds of a degree
//     movement = a bit each for sleep, physics, frame and handle, vector, rotation, vector,
//                [physics] vector, [frame] packed number, [handle] packed number
//
// Every call takes any bytes, any cursor and any number, and answers with a value or with one of document 01's refusals. A
// cursor goes in by value; an answer carries the next position.
#![tactic(auto)]

mod movements;
mod parts;
mod rotations;
pub mod said;
mod vectors;

ghost use Rattle.std.specs.Prelude.{◌≡◌};
ghost use Rattle.geometry.specs.Vectors.{read_vector, read_normal};
ghost use Rattle.geometry.specs.Rotations.{read_rotation_lem};
ghost use Rattle.geometry.specs.ByteAngles.{byte_angle_steps_lem};
ghost use Rattle.geometry.specs.Movements.{read_movement};
ghost use Rattle.geometry.specs.declared.Refusal.TheVariants.{Unread};

use bitio::{Cursor, Read};

// ---- values

#[derive(Clone, Copy)]
pub struct Vector {
    pub x: f64,
    pub y: f64,
    pub z: f64,
}

// In degrees.
#[derive(Clone, Copy)]
pub struct Rotation {
    pub pitch: f32,
    pub yaw: f32,
    pub roll: f32,
}

// What is absent is None and never a zero.
#[derive(Clone, Copy)]
pub struct Movement {
    pub location: Vector,
    pub rotation: Rotation,
    pub linear: Vector,
    pub angular: Option<Vector>,
    pub sleep: bool,
    pub physics: bool,
    pub frame: Option<u32>,
    pub handle: Option<u32>,
    // How many of frame and handle took more bytes than they need: 0, 1 or 2.
    pub padded: u32,
}

// What `byte_angle_steps` gives for a number that is no byte: no byte's angle has so many steps.
pub const NOT_A_BYTE: u32 = 4294967295;

// How a movement's rotation is sent: 8 or 16 bits an axis.
#[derive(Clone, Copy)]
pub enum RotatorQuantization {
    ByteComponents,
    ShortComponents,
}

// How a movement's location is sent: the scale 1, 10 or 100.
#[derive(Clone, Copy)]
pub enum VectorQuantization {
    RoundWholeNumber,
    RoundOneDecimal,
    RoundTwoDecimals,
}

// Why a call gives no value, with the values of document 01's table.
#[derive(Clone, Copy)]
pub enum Refusal {
    // A part can't be read (1, 7, 8, 9, 14).
    Unread(bitio::Refusal),
    // 11: the scale is 0.
    NoScale,
    // 12: a component is a NaN or infinite. Where the cursor stands: behind the three components.
    NotFinite(u64),
    // 13: a rotation's width is neither 8 nor 16.
    NoSuchWidth,
}

impl From<bitio::Refusal> for Refusal {
    ghost from_gives = { λ r why. why ≡ Unread r };

    fn from(r: bitio::Refusal) -> Refusal {
        Refusal::Unread(r)
    }
}

// ---- calls

// A quantized vector. Refusals: 14 for a bad cursor, 11, then 7 and 12.
pub fn read_vector_net_quantize(
    bytes: &[u8],
    c: Cursor,
    scale: u32,
) -> Result<Read<Vector>, Refusal>
    ensures { result ≡ read_vector bytes.now c scale }
{
    bitio::position(bytes, c)?;
    if scale == 0 {
        return Err(Refusal::NoScale);
    }
    vectors::quantized(bytes, c, scale)
}

// A fixed-point normal. Refusals: 14 for a bad cursor, then 7.
pub fn read_fixed_vector_normal(bytes: &[u8], c: Cursor) -> Result<Read<Vector>, Refusal>
    ensures { result ≡ read_normal bytes.now c }
{
    let axes = parts::three_shorts(bytes, c)?;
    Ok(vectors::normal_of(axes))
}

// A rotation of 8 or 16 bits an axis. Refusals: 14 for a bad cursor, 13, then 7. The axes' reads test the cursor, so it is asked
// by itself only where nothing is read.
pub fn read_rotation(bytes: &[u8], c: Cursor, width: u32) -> Result<Read<Rotation>, Refusal>
    ensures { result ≡ read_rotation_lem bytes.now c width }
{
    if width == 8 {
        return rotations::read::<8>(bytes, c);
    }
    if width == 16 {
        return rotations::read::<16>(bytes, c);
    }
    bitio::position(bytes, c)?;
    Err(Refusal::NoSuchWidth)
}

// The movement record in the first `count` bits; bits may be left over. The bits used stand in the place of the next position, as a
// movement starts at bit 0. Refusals: 1, 14, then those of its parts.
pub fn read_rep_movement(
    bytes: &[u8],
    count: u64,
    rotation: RotatorQuantization,
    location: VectorQuantization,
) -> Result<Read<Movement>, Refusal>
    ensures { result ≡ read_movement bytes.now count rotation location }
{
    let c = bitio::open(bytes, count)?;
    movements::read_record(bytes, c, rotation, location)
}

// A byte's angle as a whole number: thirty-seconds of a degree, 45 times the byte. A number above 255 is no byte and gets
// 4294967295.
pub fn byte_angle_steps(k: u32) -> u32
    ensures { result ≡ byte_angle_steps_lem k }
{
    if k < 256 {
        return floats::byte_angles::entry(k);
    }
    NOT_A_BYTE
}
