// What C calls: each function hands its arguments to that of crate exports of the same name, and promises what that one does. The header is
// host/c/vrf.h, and says how a slice and a struct cross.
#![tactic(auto)]

ghost use Rattle.std.specs.Prelude.{◌≡◌};
ghost use Rattle.schema.specs.Tables.{tables};
ghost use Rattle.array.specs.Calls.{struct_call, exact_call, lent};
ghost use Rattle.fastarray.specs.Answers as F;
ghost use Rattle.geometry.specs.ByteAngles.{byte_angle_steps_lem};
ghost use Rattle.exports.specs.WalkResults.{Walks, WalksPairs, mode_of, DecodesBody};
ghost use Rattle.exports.specs.Calls.{vrf_merge_lem, vrf_verdict_lem, FillsForC, vrf_read_bits_lem, vrf_read_packed_lem, vrf_read_serialized_lem, CopiesForC, vrf_vector_lem, vrf_normal_lem, vrf_rotation_lem, vrf_movement_lem};

use exports::{
    VrfCounters, VrfCursor, VrfFastArray, VrfMerge, VrfMovement, VrfObjects, VrfPacked, VrfRead,
    VrfRotation, VrfSchema, VrfVector, VrfWalk,
};

// ---- walks

// A root of 4294967295 means no schema, a declared row that starts there, with length 0, no declared name; a kept tail's leaf
// has it as its handle.
#[unsafe(no_mangle)]
pub extern "C" fn vrf_struct_array<'a>(
    bytes: &[u8],
    bits: u32,
    rows: &[u32],
    levels: u32,
    root: u32,
    names: &'a [u8],
    declared: &[u32],
    declared_names: &'a [u8],
    leaves: &mut [u32],
    paths: &mut [u8],
    payloads: &mut [u8],
) -> VrfWalk
    ensures { Walks
        (struct_call bytes.now bits
        (tables rows.now names.now declared.now declared_names.now) levels root)
        (lent leaves.old paths.old payloads.old) result
        (lent leaves.new paths.new payloads.new) }
{
    exports::vrf_struct_array(
        bytes,
        bits,
        rows,
        levels,
        root,
        names,
        declared,
        declared_names,
        leaves,
        paths,
        payloads,
    )
}

#[unsafe(no_mangle)]
pub extern "C" fn vrf_struct_array_exact(
    bytes: &[u8],
    bits: u32,
    declared: &[u32],
    declared_names: &[u8],
    leaves: &mut [u32],
    paths: &mut [u8],
    payloads: &mut [u8],
) -> VrfWalk
    ensures { Walks (exact_call bytes.now bits declared.now declared_names.now)
        (lent leaves.old paths.old payloads.old) result
        (lent leaves.new paths.new payloads.new) }
{
    exports::vrf_struct_array_exact(
        bytes,
        bits,
        declared,
        declared_names,
        leaves,
        paths,
        payloads,
    )
}

#[unsafe(no_mangle)]
pub extern "C" fn vrf_object_array(bytes: &[u8], bits: u32, pairs: &mut [u32]) -> VrfObjects
    ensures { WalksPairs bytes.now bits pairs.old result pairs.new }
{
    exports::vrf_object_array(bytes, bits, pairs)
}

#[unsafe(no_mangle)]
pub extern "C" fn vrf_merge(left: VrfCounters, right: VrfCounters) -> VrfMerge
    ensures { result ≡ vrf_merge_lem left right }
{
    exports::vrf_merge(left, right)
}

// Of a set of counters, of one walk or of several added up: 0 clean, 1 partial. The rule on no bits is a window's, whose verdict
// stands in its walk's struct.
#[unsafe(no_mangle)]
pub extern "C" fn vrf_verdict(counters: VrfCounters) -> u32
    ensures { result ≡ vrf_verdict_lem counters }
{
    exports::vrf_verdict(counters)
}

// ---- the schema, and the fast array

#[unsafe(no_mangle)]
pub extern "C" fn vrf_schema(rows: &mut [u32], names: &mut [u8]) -> VrfSchema
    ensures { FillsForC rows.old names.old result rows.new names.new }
{
    exports::vrf_schema(rows, names)
}

// `checksum`: 0 if no flag stands between an item's id and its fields; any other number if one does.
#[unsafe(no_mangle)]
pub extern "C" fn vrf_fast_array(
    payload: &[u8],
    bits: u32,
    checksum: u32,
    deleted: &mut [i32],
    items: &mut [u32],
    fields: &mut [u32],
) -> VrfFastArray
    ensures { DecodesBody (F.call payload.now bits (mode_of checksum))
        (F.lent deleted.old items.old fields.old) result
        (F.lent deleted.new items.new fields.new) }
{
    exports::vrf_fast_array(payload, bits, checksum, deleted, items, fields)
}

// ---- bit reads

#[unsafe(no_mangle)]
pub extern "C" fn vrf_read_bits(bytes: &[u8], cursor: VrfCursor, count: u64) -> VrfRead
    ensures { result ≡ vrf_read_bits_lem bytes.now cursor count }
{
    exports::vrf_read_bits(bytes, cursor, count)
}

#[unsafe(no_mangle)]
pub extern "C" fn vrf_read_packed(bytes: &[u8], cursor: VrfCursor) -> VrfPacked
    ensures { result ≡ vrf_read_packed_lem bytes.now cursor }
{
    exports::vrf_read_packed(bytes, cursor)
}

#[unsafe(no_mangle)]
pub extern "C" fn vrf_read_serialized(bytes: &[u8], cursor: VrfCursor, maximum: u32) -> VrfRead
    ensures { result ≡ vrf_read_serialized_lem bytes.now cursor maximum }
{
    exports::vrf_read_serialized(bytes, cursor, maximum)
}

#[unsafe(no_mangle)]
pub extern "C" fn vrf_copy_bits(
    bytes: &[u8],
    cursor: VrfCursor,
    count: u64,
    target: &mut [u8],
) -> VrfRead
    ensures { CopiesForC bytes.now cursor count target.old result target.new }
{
    exports::vrf_copy_bits(bytes, cursor, count, target)
}

// ---- vectors, rotations, movement

#[unsafe(no_mangle)]
pub extern "C" fn vrf_vector(bytes: &[u8], cursor: VrfCursor, scale: u32) -> VrfVector
    ensures { result ≡ vrf_vector_lem bytes.now cursor scale }
{
    exports::vrf_vector(bytes, cursor, scale)
}

#[unsafe(no_mangle)]
pub extern "C" fn vrf_normal(bytes: &[u8], cursor: VrfCursor) -> VrfVector
    ensures { result ≡ vrf_normal_lem bytes.now cursor }
{
    exports::vrf_normal(bytes, cursor)
}

#[unsafe(no_mangle)]
pub extern "C" fn vrf_rotation(bytes: &[u8], cursor: VrfCursor, width: u32) -> VrfRotation
    ensures { result ≡ vrf_rotation_lem bytes.now cursor width }
{
    exports::vrf_rotation(bytes, cursor, width)
}

// `rotation`: 0 for 8 bits an axis, any other number for 16. `location`: 0 for the scale 1, 1 for 10, any other number for 100.
#[unsafe(no_mangle)]
pub extern "C" fn vrf_movement(
    bytes: &[u8],
    count: u64,
    rotation: u32,
    location: u32,
) -> VrfMovement
    ensures { result ≡ vrf_movement_lem bytes.now count rotation location }
{
    exports::vrf_movement(bytes, count, rotation, location)
}

#[unsafe(no_mangle)]
pub extern "C" fn vrf_byte_angle_steps(k: u32) -> u32
    ensures { result ≡ byte_angle_steps_lem k }
{
    exports::vrf_byte_angle_steps(k)
}
