// Three parts of one kind, one after another: a vector's components, a normal's axes, a rotation's angles.
ghost use Rattle.std.specs.Prelude.{◌≡◌, ◌+◌, ◌*◌, ◌%◌, ◌^◌, ◌≤◌, ◌<◌};
ghost use Rattle.geometry.specs.Parts.{axis_at, part_at, three_at, apart, together, components_at, axis_in_lem, axis_bits_lem, axes_in};
ghost use Rattle.geometry.specs.declared.parts.Part.TheVariants.{Bits, Axis, Integer};
ghost use Rattle.bitio.specs.Reads.{read_bits_lem};
ghost use Rattle.bitio.specs.Numbers.{read_serialized_int_lem};

use bitio::{Cursor, Read, Refusal};

#[derive(Clone, Copy)]
pub enum Part {
    // So many bits.
    Bits(u64),
    // A bit, and where it is set so many bits, else 0.
    Axis(u64),
    // A serialized integer with this maximum.
    Integer(u32),
}

#[derive(Clone, Copy)]
pub struct Three {
    pub x: u64,
    pub y: u64,
    pub z: u64,
}

fn read_axis(bytes: &[u8], c: Cursor, width: u64) -> Result<Read<u64>, Refusal>
    ensures { result ≡ axis_at bytes.now c width }
{
    let set = bitio::read_bit(bytes, c)?;
    let next = set.next;
    if set.value {
        return bitio::read_bits(bytes, Cursor { pos: next, ..c }, width);
    }
    Ok(Read { value: 0, next })
}

fn read_integer(bytes: &[u8], c: Cursor, max: u32) -> Result<Read<u64>, Refusal>
    ensures { result ≡ read_serialized_int_lem bytes.now c max }
{
    let read = bitio::read_serialized_int(bytes, c, max)?;
    Ok(Read {
        value: read.value as u64,
        next: read.next,
    })
}

fn read_part(bytes: &[u8], c: Cursor, p: Part) -> Result<Read<u64>, Refusal>
    ensures { result ≡ part_at bytes.now p c }
{
    match p {
        Part::Bits(n) => bitio::read_bits(bytes, c, n),
        Part::Axis(width) => read_axis(bytes, c, width),
        Part::Integer(max) => read_integer(bytes, c, max),
    }
}

pub fn read_three(bytes: &[u8], c: Cursor, p: Part) -> Result<Read<Three>, Refusal>
    ensures { result ≡ three_at bytes.now p c }
{
    let x = read_part(bytes, c, p)?;
    let y = read_part(bytes, Cursor { pos: x.next, ..c }, p)?;
    let z = read_part(bytes, Cursor { pos: y.next, ..c }, p)?;
    let value = Three {
        x: x.value,
        y: y.value,
        z: z.value,
    };
    Ok(Read {
        value,
        next: z.next,
    })
}

// Three numbers of n bits each. Their room is tested once; where it is short, the single reads find which part is refused.
pub fn three_bits(bytes: &[u8], c: Cursor, n: u64) -> Result<Read<Three>, Refusal>
    requires { n ≤ 64 }
    ensures { result ≡ three_at bytes.now (Bits n) c }
{
    let Ok(next) = bitio::skip_bits(bytes, c, 3 * n) else {
        return read_three(bytes, c, Part::Bits(n));
    };
    let first = c.start + c.pos;
    let second = first + n;
    let third = second + n;
    let x = bits::field::field_of(bytes, first, n);
    let y = bits::field::field_of(bytes, second, n);
    let z = bits::field::field_of(bytes, third, n);
    let value = Three { x, y, z };
    Ok(Read { value, next })
}

// `three_bits` at 32, by itself for speed: the first two are one word.
pub fn three_singles(bytes: &[u8], c: Cursor) -> Result<Read<Three>, Refusal>
    ensures { result ≡ three_at bytes.now (Bits 32) c }
{
    let Ok(next) = bitio::skip_bits(bytes, c, 96) else {
        return read_three(bytes, c, Part::Bits(32));
    };
    let first = c.start + c.pos;
    let two = bits::field::word_at(bytes, first);
    let x = two % 0x1_0000_0000;
    let y = two / 0x1_0000_0000;
    let third = first + 64;
    let z = bits::field::field_at(bytes, third, 32);
    let value = Three { x, y, z };
    Ok(Read { value, next })
}

// The number of an axis whose bit is the lowest of `all`.
fn axis_in(all: u64, width: u64) -> u64
    requires { width ≤ 20 }
    ensures { result ≡ axis_in_lem all width }
{
    let size = 1u64 << width;
    let k = (all >> 1) % size;
    all % 2 * k
}

// The bits that this axis takes.
fn axis_bits(all: u64, width: u64) -> u64
    requires { width ≤ 20 }
    ensures { result ≡ axis_bits_lem all width }
{
    1 + all % 2 * width
}

// The three axes that stand one behind another from the lowest bit of `all` on; that bit is bit `pos` of the window.
fn cut_axes(all: u64, width: u64, pos: u64) -> Read<Three>
    requires { (width ≤ 20) × (pos + 3 * (width + 1) < 2 ^ 64) }
    ensures { result ≡ axes_in all width pos }
{
    let x = axis_in(all, width);
    let a = axis_bits(all, width);
    let behind = all >> a;
    let y = axis_in(behind, width);
    let b = axis_bits(behind, width);
    let last = behind >> b;
    let z = axis_in(last, width);
    let d = axis_bits(last, width);
    let value = Three { x, y, z };
    Read {
        value,
        next: pos + a + b + d,
    }
}

// Three axes near the window's end: they may take fewer bits than they could.
fn last_axes(bytes: &[u8], c: Cursor, width: u64) -> Result<Read<Three>, Refusal>
    requires { width ≤ 20 }
    ensures { result ≡ three_at bytes.now (Axis width) c }
{
    let Ok(left) = bitio::bits_remaining(bytes, c) else {
        return read_three(bytes, c, Part::Axis(width));
    };
    let n = left.min(3 * (width + 1));
    let first = c.start + c.pos;
    let all = bits::field::field_of(bytes, first, n);
    let axes = cut_axes(all, width, 0);
    if n < axes.next {
        return read_three(bytes, c, Part::Axis(width));
    }
    Ok(Read {
        next: c.pos + axes.next,
        ..axes
    })
}

// Three axes, cut out of the word that starts with their first byte: at most 7 bits before them and 3 * 19 of theirs fill it. Of
// what stands behind them there `cut_axes` takes nothing.
pub fn three_axes(bytes: &[u8], c: Cursor, width: u64) -> Result<Read<Three>, Refusal>
    requires { width ≤ 18 }
    ensures { result ≡ three_at bytes.now (Axis width) c }
{
    let most = 3 * (width + 1);
    let Ok(_) = bitio::skip_bits(bytes, c, most) else {
        return last_axes(bytes, c, width);
    };
    let pos = c.pos;
    let first = c.start + pos;
    let i = (first / 8) as usize;
    let word = bits::load::load(bytes, i);
    let all = word >> (first % 8);
    Ok(cut_axes(all, width, pos))
}

// Three numbers of w bits each that were read as one.
fn cut_apart(all: u64, w: u32) -> Three
    requires { w ≤ 21 }
    ensures { result ≡ apart w all }
{
    let size = 1u64 << w;
    let x = all % size;
    let y = (all >> w) % size;
    let z = (all >> (2 * w)) % size;
    Three { x, y, z }
}

// Three serialized integers with maximum 65,536: `three_bits` at 16, by itself for speed: they are one field.
pub fn three_shorts(bytes: &[u8], c: Cursor) -> Result<Read<Three>, Refusal>
    ensures { result ≡ three_at bytes.now (Integer 65536) c }
{
    let Ok(next) = bitio::skip_bits(bytes, c, 48) else {
        return read_three(bytes, c, Part::Integer(65536));
    };
    let first = c.start + c.pos;
    let all = bits::field::field_at(bytes, first, 48);
    let value = cut_apart(all, 16);
    Ok(Read { value, next })
}

// Three numbers of w bits each in one read.
fn read_together(bytes: &[u8], c: Cursor, w: u32) -> Result<Read<Three>, Refusal>
    requires { w ≤ 21 }
    ensures { result ≡ together w (read_bits_lem bytes.now c (3 * w)) }
{
    let count = (3 * w) as u64;
    let next = bitio::skip_bits(bytes, c, count)?;
    let first = c.start + c.pos;
    let all = bits::field::field_of(bytes, first, count);
    let value = cut_apart(all, w);
    Ok(Read { value, next })
}

// A vector's components of w bits each: one read if they fit one, else three.
pub fn read_components(bytes: &[u8], c: Cursor, w: u32) -> Result<Read<Three>, Refusal>
    requires { w ≤ 63 }
    ensures { result ≡ components_at bytes.now w c }
{
    if 3 * w <= 64 {
        return read_together(bytes, c, w);
    }
    let n = w as u64;
    three_bits(bytes, c, n)
}
