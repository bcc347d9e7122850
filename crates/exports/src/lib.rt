// The calls of the base for C, as functions of a library; crate exports_c hands each to C in one static library, whose header is
// host/c/vrf.h.
//
// A slice is a pointer and a length, a result a struct by value: the refusal's number first, 0 where the call is accepted,
// then the values of document 01's table in its order, then what an accepted call gives; what isn't named is 0, but for the
// position that a refused read leaves. Only `vrf_verdict` and `vrf_byte_angle_steps`, which refuse nothing, give a plain
// number. Each function takes the answer of one proved call apart; the definition that its contract cites is made of that call's.
#![tactic(auto)]

mod cursors;
mod moves;
mod walks;

ghost use Rattle.std.specs.Prelude.{◌≡◌};
ghost use Rattle.schema.specs.Tables.{tables};
ghost use Rattle.array.specs.Calls.{struct_call, exact_call, lent};
ghost use Rattle.fastarray.specs.Answers as F;
ghost use Rattle.geometry.specs.ByteAngles.{byte_angle_steps_lem};
ghost use Rattle.exports.specs.WalkResults.{Walks, WalksPairs, mode_of, DecodesBody};
ghost use Rattle.exports.specs.Calls.{vrf_merge_lem, vrf_verdict_lem, FillsForC, vrf_read_bits_lem, vrf_read_packed_lem, vrf_read_serialized_lem, CopiesForC, vrf_vector_lem, vrf_normal_lem, vrf_rotation_lem, vrf_movement_lem};

// ---- what is handed in and out

// The seven counters of a walk, in document 01's order.
#[repr(C)]
#[derive(Clone, Copy)]
pub struct VrfCounters {
    pub elements: u64,
    pub fields: u64,
    pub truncations: u64,
    pub errors: u64,
    pub nested_bits: u64,
    pub root_bits: u64,
    pub implicit_terminations: u64,
}

// A struct or exact walk: what it fills of each output, or with refusal 3 what it needs. The verdict is 0 clean, 1 partial, 2
// empty: nothing was sent. Padded: how many of the packed numbers that were read have a shorter form.
#[repr(C)]
#[derive(Clone, Copy)]
pub struct VrfWalk {
    pub refusal: u32,
    pub leaves: u32,
    pub path_bytes: u32,
    pub payload_bytes: u32,
    pub counters: VrfCounters,
    pub verdict: u32,
    pub padded: u32,
}

// An object walk: the same, of pairs. Its verdict is never empty: of no bits it is partial.
#[repr(C)]
#[derive(Clone, Copy)]
pub struct VrfObjects {
    pub refusal: u32,
    pub pairs: u32,
    pub counters: VrfCounters,
    pub verdict: u32,
    pub padded: u32,
}

// Two walks' counters added up, or with refusal 4 the left ones.
#[repr(C)]
#[derive(Clone, Copy)]
pub struct VrfMerge {
    pub refusal: u32,
    pub counters: VrfCounters,
}

// The twelve levels: the numbers of the rows, the bytes of the names, the levels.
#[repr(C)]
#[derive(Clone, Copy)]
pub struct VrfSchema {
    pub refusal: u32,
    pub rows: usize,
    pub names: usize,
    pub levels: u32,
}

// A fast-array body: what it fills of each output, or with refusal 3 what it needs; its keys, the bits used, and the padded ones among its
// packed numbers.
#[repr(C)]
#[derive(Clone, Copy)]
pub struct VrfFastArray {
    pub refusal: u32,
    pub deletes: u32,
    pub items: u32,
    pub fields: u32,
    pub key: i32,
    pub base: i32,
    pub used: u32,
    pub padded: u32,
}

// A cursor: its window's first bit, the next bit of the window, the window's length.
#[repr(C)]
#[derive(Clone, Copy)]
pub struct VrfCursor {
    pub start: u64,
    pub pos: u64,
    pub len: u64,
}

// A bit read or a copy, and where the cursor stands after it, refused or not.
#[repr(C)]
#[derive(Clone, Copy)]
pub struct VrfRead {
    pub refusal: u32,
    pub first: u64,
    pub second: u64,
    pub third: u64,
    pub value: u64,
    pub position: u64,
}

// A packed number, with the bytes that it took, and whether fewer would do; refused, these are 0 and false.
#[repr(C)]
#[derive(Clone, Copy)]
pub struct VrfPacked {
    pub refusal: u32,
    pub first: u64,
    pub second: u64,
    pub third: u64,
    pub value: u64,
    pub position: u64,
    pub bytes: u32,
    pub padded: bool,
}

#[repr(C)]
#[derive(Clone, Copy)]
pub struct VrfXyz {
    pub x: f64,
    pub y: f64,
    pub z: f64,
}

// In degrees.
#[repr(C)]
#[derive(Clone, Copy)]
pub struct VrfAngles {
    pub pitch: f32,
    pub yaw: f32,
    pub roll: f32,
}

#[repr(C)]
#[derive(Clone, Copy)]
pub struct VrfVector {
    pub refusal: u32,
    pub first: u64,
    pub second: u64,
    pub third: u64,
    pub value: VrfXyz,
    pub position: u64,
}

#[repr(C)]
#[derive(Clone, Copy)]
pub struct VrfRotation {
    pub refusal: u32,
    pub first: u64,
    pub second: u64,
    pub third: u64,
    pub value: VrfAngles,
    pub position: u64,
}

// An angular velocity that may be absent.
#[repr(C)]
#[derive(Clone, Copy)]
pub struct VrfSpin {
    pub present: bool,
    pub velocity: VrfXyz,
}

// A frame or a handle that may be absent.
#[repr(C)]
#[derive(Clone, Copy)]
pub struct VrfNumber {
    pub present: bool,
    pub value: u32,
}

#[repr(C)]
#[derive(Clone, Copy)]
pub struct VrfMovement {
    pub refusal: u32,
    pub first: u64,
    pub second: u64,
    pub third: u64,
    pub location: VrfXyz,
    pub rotation: VrfAngles,
    pub linear: VrfXyz,
    pub angular: VrfSpin,
    pub sleep: bool,
    pub physics: bool,
    pub frame: VrfNumber,
    pub handle: VrfNumber,
    pub position: u64,
    pub padded: u32,
}

// ---- walks

// A root of 4294967295 means no schema, a declared row that starts there, with length 0, no declared name; a kept tail's leaf
// has it as its handle.
pub fn vrf_struct_array<'a>(
    bytes: &[u8],
    bits: u32,
    rows: &[u32],
    levels: u32,
    root: u32,
    names: &'a [u8],
    declared: &[u32],
    declared_names: &'a [u8],
    leaves: &mut [u32],
    paths: &mut [u8],
    payloads: &mut [u8],
) -> VrfWalk
    ensures { Walks
        (struct_call bytes.now bits
        (tables rows.now names.now declared.now declared_names.now) levels root)
        (lent leaves.old paths.old payloads.old) result
        (lent leaves.new paths.new payloads.new) }
{
    let answer = array::decode_struct_array(
        bytes,
        bits,
        rows,
        levels,
        root,
        names,
        declared,
        declared_names,
        leaves,
        paths,
        payloads,
    );
    walks::walk_of(answer)
}

pub fn vrf_struct_array_exact(
    bytes: &[u8],
    bits: u32,
    declared: &[u32],
    declared_names: &[u8],
    leaves: &mut [u32],
    paths: &mut [u8],
    payloads: &mut [u8],
) -> VrfWalk
    ensures { Walks (exact_call bytes.now bits declared.now declared_names.now)
        (lent leaves.old paths.old payloads.old) result
        (lent leaves.new paths.new payloads.new) }
{
    let answer = array::decode_struct_array_exact(
        bytes,
        bits,
        declared,
        declared_names,
        leaves,
        paths,
        payloads,
    );
    walks::walk_of(answer)
}

pub fn vrf_object_array(bytes: &[u8], bits: u32, pairs: &mut [u32]) -> VrfObjects
    ensures { WalksPairs bytes.now bits pairs.old result pairs.new }
{
    let answer = array::decode_object_ref_array(bytes, bits, pairs);
    walks::objects_of(answer)
}

pub fn vrf_merge(left: VrfCounters, right: VrfCounters) -> VrfMerge
    ensures { result ≡ vrf_merge_lem left right }
{
    let a = walks::stats_of(left);
    let b = walks::stats_of(right);
    let answer = array::stats::merge_from(a, b);
    walks::merge_of(answer)
}

// Of a set of counters, of one walk or of several added up: 0 clean, 1 partial. The rule on no bits is a window's, whose verdict
// stands in its walk's struct.
pub fn vrf_verdict(counters: VrfCounters) -> u32
    ensures { result ≡ vrf_verdict_lem counters }
{
    let stats = walks::stats_of(counters);
    let answer = array::stats::verdict(stats);
    walks::verdict_number(answer)
}

// ---- the schema, and the fast array

pub fn vrf_schema(rows: &mut [u32], names: &mut [u8]) -> VrfSchema
    ensures { FillsForC rows.old names.old result rows.new names.new }
{
    let answer = schema::twelve::fill_schema(rows, names);
    walks::schema_of(answer)
}

// `checksum`: 0 if no flag stands between an item's id and its fields; any other number if one does.
pub fn vrf_fast_array(
    payload: &[u8],
    bits: u32,
    checksum: u32,
    deleted: &mut [i32],
    items: &mut [u32],
    fields: &mut [u32],
) -> VrfFastArray
    ensures { DecodesBody (F.call payload.now bits (mode_of checksum))
        (F.lent deleted.old items.old fields.old) result
        (F.lent deleted.new items.new fields.new) }
{
    let mode = walks::mode_of(checksum);
    let answer = fastarray::decode_fast_array_delta(payload, bits, mode, deleted, items, fields);
    walks::fast_array_of(answer)
}

// ---- bit reads

pub fn vrf_read_bits(bytes: &[u8], cursor: VrfCursor, count: u64) -> VrfRead
    ensures { result ≡ vrf_read_bits_lem bytes.now cursor count }
{
    let c = cursors::cursor_of(cursor);
    let answer = bitio::read_bits(bytes, c, count);
    cursors::read_of(answer, c.pos)
}

pub fn vrf_read_packed(bytes: &[u8], cursor: VrfCursor) -> VrfPacked
    ensures { result ≡ vrf_read_packed_lem bytes.now cursor }
{
    let c = cursors::cursor_of(cursor);
    let answer = bitio::read_int_packed(bytes, c);
    cursors::packed_of(answer, c.pos)
}

pub fn vrf_read_serialized(bytes: &[u8], cursor: VrfCursor, maximum: u32) -> VrfRead
    ensures { result ≡ vrf_read_serialized_lem bytes.now cursor maximum }
{
    let c = cursors::cursor_of(cursor);
    let answer = bitio::read_serialized_int(bytes, c, maximum);
    cursors::read_of(answer, c.pos)
}

pub fn vrf_copy_bits(bytes: &[u8], cursor: VrfCursor, count: u64, target: &mut [u8]) -> VrfRead
    ensures { CopiesForC bytes.now cursor count target.old result target.new }
{
    let c = cursors::cursor_of(cursor);
    let answer = bitio::copy_bits_to(bytes, c, count, target);
    cursors::copy_of(answer, c.pos)
}

// ---- vectors, rotations, movement

pub fn vrf_vector(bytes: &[u8], cursor: VrfCursor, scale: u32) -> VrfVector
    ensures { result ≡ vrf_vector_lem bytes.now cursor scale }
{
    let c = cursors::cursor_of(cursor);
    let answer = geometry::read_vector_net_quantize(bytes, c, scale);
    moves::vector_of(answer, c.pos)
}

pub fn vrf_normal(bytes: &[u8], cursor: VrfCursor) -> VrfVector
    ensures { result ≡ vrf_normal_lem bytes.now cursor }
{
    let c = cursors::cursor_of(cursor);
    let answer = geometry::read_fixed_vector_normal(bytes, c);
    moves::vector_of(answer, c.pos)
}

pub fn vrf_rotation(bytes: &[u8], cursor: VrfCursor, width: u32) -> VrfRotation
    ensures { result ≡ vrf_rotation_lem bytes.now cursor width }
{
    let c = cursors::cursor_of(cursor);
    let answer = geometry::read_rotation(bytes, c, width);
    moves::rotation_of(answer, c.pos)
}

// `rotation`: 0 for 8 bits an axis, any other number for 16. `location`: 0 for the scale 1, 1 for 10, any other number for 100.
pub fn vrf_movement(bytes: &[u8], count: u64, rotation: u32, location: u32) -> VrfMovement
    ensures { result ≡ vrf_movement_lem bytes.now count rotation location }
{
    let width = moves::rotation_kind(rotation);
    let scale = moves::location_kind(location);
    let answer = geometry::read_rep_movement(bytes, count, width, scale);
    moves::movement_of(answer)
}

pub fn vrf_byte_angle_steps(k: u32) -> u32
    ensures { result ≡ byte_angle_steps_lem k }
{
    geometry::byte_angle_steps(k)
}
