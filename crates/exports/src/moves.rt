// Answers of the vector, rotation and movement readers as structs for C.
ghost use Rattle.std.specs.Prelude.{◌≡◌};
ghost use Rattle.geometry.specs.Refusals.{numbered, stands_after_lem};
ghost use Rattle.exports.specs.ReadResults.{refused_read};
ghost use Rattle.exports.specs.MoveResults.{xyz_of_lem, angles_of_lem, no_xyz_lem, no_angles_lem, spin_of_lem, present_of, vector_result, rotation_result, moved_result, unmoved_result, movement_result, rotation_kind_lem, location_kind_lem};

use crate::{
    VrfAngles, VrfMovement, VrfNumber, VrfRead, VrfRotation, VrfSpin, VrfVector, VrfXyz, cursors,
};
use bitio::Read;
use geometry::said::{said, stands_after};
use geometry::{Movement, Refusal, Rotation, RotatorQuantization, Vector, VectorQuantization};

// ---- parts

impl From<Vector> for VrfXyz {
    ghost from_gives = { λ v r. r ≡ xyz_of_lem v };

    fn from(v: Vector) -> VrfXyz {
        VrfXyz {
            x: v.x,
            y: v.y,
            z: v.z,
        }
    }
}

fn no_xyz() -> VrfXyz
    ensures { result ≡ no_xyz_lem }
{
    VrfXyz {
        x: 0.0,
        y: 0.0,
        z: 0.0,
    }
}

impl From<Rotation> for VrfAngles {
    ghost from_gives = { λ v r. r ≡ angles_of_lem v };

    fn from(v: Rotation) -> VrfAngles {
        VrfAngles {
            pitch: v.pitch,
            yaw: v.yaw,
            roll: v.roll,
        }
    }
}

fn no_angles() -> VrfAngles
    ensures { result ≡ no_angles_lem }
{
    VrfAngles {
        pitch: 0.0,
        yaw: 0.0,
        roll: 0.0,
    }
}

impl From<Option<Vector>> for VrfSpin {
    ghost from_gives = { λ a r. r ≡ spin_of_lem a };

    fn from(a: Option<Vector>) -> VrfSpin {
        match a {
            None => VrfSpin {
                present: false,
                velocity: no_xyz(),
            },
            Some(v) => VrfSpin {
                present: true,
                velocity: VrfXyz::from(v),
            },
        }
    }
}

impl From<Option<u32>> for VrfNumber {
    ghost from_gives = { λ a r. r ≡ present_of a };

    fn from(a: Option<u32>) -> VrfNumber {
        match a {
            None => VrfNumber {
                present: false,
                value: 0,
            },
            Some(value) => VrfNumber {
                present: true,
                value,
            },
        }
    }
}

// ---- refusals

// What a refusal says, and where the cursor that stood at `at` stands after it.
fn refused(why: Refusal, at: u64) -> VrfRead
    ensures { result ≡ refused_read (numbered why) (stands_after_lem at why) }
{
    let told = said(why);
    let position = stands_after(why, at);
    cursors::read_refused(told, position)
}

// ---- answers

pub fn vector_of(a: Result<Read<Vector>, Refusal>, at: u64) -> VrfVector
    ensures { result ≡ vector_result at a }
{
    match a {
        Ok(v) => VrfVector {
            refusal: 0,
            first: 0,
            second: 0,
            third: 0,
            value: VrfXyz::from(v.value),
            position: v.next,
        },
        Err(r) => {
            let unread = refused(r, at);
            VrfVector {
                refusal: unread.refusal,
                first: unread.first,
                second: unread.second,
                third: unread.third,
                value: no_xyz(),
                position: unread.position,
            }
        }
    }
}

pub fn rotation_of(a: Result<Read<Rotation>, Refusal>, at: u64) -> VrfRotation
    ensures { result ≡ rotation_result at a }
{
    match a {
        Ok(v) => VrfRotation {
            refusal: 0,
            first: 0,
            second: 0,
            third: 0,
            value: VrfAngles::from(v.value),
            position: v.next,
        },
        Err(r) => {
            let unread = refused(r, at);
            VrfRotation {
                refusal: unread.refusal,
                first: unread.first,
                second: unread.second,
                third: unread.third,
                value: no_angles(),
                position: unread.position,
            }
        }
    }
}

pub fn rotation_kind(n: u32) -> RotatorQuantization
    ensures { result ≡ rotation_kind_lem n }
{
    if n == 0 {
        RotatorQuantization::ByteComponents
    } else {
        RotatorQuantization::ShortComponents
    }
}

pub fn location_kind(n: u32) -> VectorQuantization
    ensures { result ≡ location_kind_lem n }
{
    if n == 0 {
        return VectorQuantization::RoundWholeNumber;
    }
    if n == 1 {
        VectorQuantization::RoundOneDecimal
    } else {
        VectorQuantization::RoundTwoDecimals
    }
}

fn moved(m: Movement, used: u64) -> VrfMovement
    ensures { result ≡ moved_result m used }
{
    VrfMovement {
        refusal: 0,
        first: 0,
        second: 0,
        third: 0,
        location: VrfXyz::from(m.location),
        rotation: VrfAngles::from(m.rotation),
        linear: VrfXyz::from(m.linear),
        angular: VrfSpin::from(m.angular),
        sleep: m.sleep,
        physics: m.physics,
        frame: VrfNumber::from(m.frame),
        handle: VrfNumber::from(m.handle),
        position: used,
        padded: m.padded,
    }
}

fn unmoved(unread: VrfRead) -> VrfMovement
    ensures { result ≡ unmoved_result unread }
{
    VrfMovement {
        refusal: unread.refusal,
        first: unread.first,
        second: unread.second,
        third: unread.third,
        location: no_xyz(),
        rotation: no_angles(),
        linear: no_xyz(),
        angular: VrfSpin::from(None),
        sleep: false,
        physics: false,
        frame: VrfNumber::from(None),
        handle: VrfNumber::from(None),
        position: unread.position,
        padded: 0,
    }
}

// A movement starts at bit 0, so the position behind it is the number of bits used.
pub fn movement_of(a: Result<Read<Movement>, Refusal>) -> VrfMovement
    ensures { result ≡ movement_result a }
{
    match a {
        Ok(m) => moved(m.value, m.next),
        Err(r) => unmoved(refused(r, 0)),
    }
}
