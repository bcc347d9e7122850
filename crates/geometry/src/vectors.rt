// Quantized vectors and fixed normals.
ghost use Rattle.std.specs.Prelude.{◌≡◌, ◌≤◌, ◌<◌, ◌^◌, from_bits};
ghost use Rattle.floats.specs.Numbers.{normal_axis_lem};
ghost use Rattle.geometry.specs.Parts.{Below};
ghost use Rattle.geometry.specs.Vectors.{components, checked, integer_over, divisor, vector_behind, quantized_at};

use crate::parts::Three;
use crate::{Refusal, Vector, parts};
use bitio::{Cursor, Read};
use floats::Pattern;

// Three patterns of one format.
fn of_patterns<F: Pattern>(t: Read<Three>) -> Result<Read<Vector>, Refusal>
    requires { Below (2 ^ F.width) t.value }
    ensures { result ≡ checked (components (from_bits F.format) t) }
{
    let next = t.next;
    let t = t.value;
    if !F::is_finite(t.x) || !F::is_finite(t.y) || !F::is_finite(t.z) {
        return Err(Refusal::NotFinite(next));
    }
    let value = Vector {
        x: F::double(t.x),
        y: F::double(t.y),
        z: F::double(t.z),
    };
    Ok(Read { value, next })
}

// Three integers of w bits over a divisor: always finite.
fn integers(t: Read<Three>, w: u32, by: u32) -> Read<Vector>
    requires { (1 ≤ w) × (w ≤ 63) × (0 < by) × Below (2 ^ w) t.value }
    ensures { result ≡ components (integer_over w by) t }
{
    let value = Vector {
        x: floats::component(t.value.x, w, by),
        y: floats::component(t.value.y, w, by),
        z: floats::component(t.value.z, w, by),
    };
    Read {
        value,
        next: t.next,
    }
}

// What the integers of a vector are divided by.
fn divisor_of(e: u32, scale: u32) -> u32
    ensures { result ≡ divisor e scale }
{
    if e == 0 { 1 } else { scale }
}

// The components behind a header of width w and rest e.
fn components_behind(
    bytes: &[u8],
    c: Cursor,
    scale: u32,
    w: u32,
    e: u32,
) -> Result<Read<Vector>, Refusal>
    requires { (w ≤ 63) × (0 < scale) }
    ensures { result ≡ vector_behind bytes.now scale w e c }
{
    if w == 0 {
        if e == 0 {
            let three = parts::three_singles(bytes, c)?;
            return of_patterns::<f32>(three);
        }
        let three = parts::three_bits(bytes, c, 64)?;
        return of_patterns::<f64>(three);
    }
    let by = divisor_of(e, scale);
    let three = parts::read_components(bytes, c, w)?;
    Ok(integers(three, w, by))
}

// A serialized integer with maximum 128 is seven bits.
pub fn quantized(bytes: &[u8], c: Cursor, scale: u32) -> Result<Read<Vector>, Refusal>
    requires { 0 < scale }
    ensures { result ≡ quantized_at bytes.now scale c }
{
    let header = bitio::read_bits(bytes, c, 7)?;
    let h = header.value as u32;
    let behind = Cursor {
        pos: header.next,
        ..c
    };
    components_behind(bytes, behind, scale, h % 64, h / 64)
}

// The normal of three axes.
pub fn normal_of(t: Read<Three>) -> Read<Vector>
    requires { Below 65536 t.value }
    ensures { result ≡ components normal_axis_lem t }
{
    let value = Vector {
        x: floats::normal_axis(t.value.x as u32),
        y: floats::normal_axis(t.value.y as u32),
        z: floats::normal_axis(t.value.z as u32),
    };
    Read {
        value,
        next: t.next,
    }
}
