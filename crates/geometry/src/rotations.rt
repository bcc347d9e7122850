// Rotations.
ghost use Rattle.std.specs.Prelude.{◌≡◌, ◌≤◌};
ghost use Rattle.geometry.specs.Rotations.{rotation_at};

use crate::{Refusal, Rotation, parts};
use bitio::{Cursor, Read};

// W bits an axis: a const parameter, so that each width is compiled by itself.
pub fn read<const W: u64>(bytes: &[u8], c: Cursor) -> Result<Read<Rotation>, Refusal>
    requires { (8 ≤ W) × (W ≤ 16) }
    ensures { result ≡ rotation_at bytes.now W c }
{
    let axes = parts::three_axes(bytes, c, W)?;
    let k = axes.value;
    let value = Rotation {
        pitch: floats::angle::<W>(k.x as u32),
        yaw: floats::angle::<W>(k.y as u32),
        roll: floats::angle::<W>(k.z as u32),
    };
    Ok(Read {
        value,
        next: axes.next,
    })
}
