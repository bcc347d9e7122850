// The walk that a recorded call asks for.
use crate::answers;
use crate::answers::Answer;
use crate::calls::{Call, Schema, Window};
use array::{Extent, Refusal, Walked};
use recorded::lists;
use schema::twelve;

// The struct walk by the twelve levels.
fn walk_twelve(
    root: u32,
    window: Window<'_>,
    declared: &[u32],
    declared_names: &[u8],
    leaves: &mut [u32],
    paths: &mut [u8],
    payloads: &mut [u8],
) -> Result<Walked<Extent>, Refusal> {
    let mut rows = [0u32; schema::twelve::ROW_NUMBERS];
    let mut names = [0u8; schema::twelve::NAME_BYTES];
    let _ = schema::twelve::fill_schema(&mut rows, &mut names);
    array::decode_struct_array(
        window.bytes,
        window.bits,
        &rows,
        twelve::LEVELS,
        root,
        &names,
        declared,
        declared_names,
        leaves,
        paths,
        payloads,
    )
}

// The struct walk by the case's own table.
fn walk_own(
    schema: Schema<'_>,
    window: Window<'_>,
    declared: &[u32],
    declared_names: &[u8],
    leaves: &mut [u32],
    paths: &mut [u8],
    payloads: &mut [u8],
) -> Result<Walked<Extent>, Refusal> {
    let mut row_numbers = [0u32; lists::ROW_ROOM];
    let rows = lists::unpack(schema.rows, &mut row_numbers);
    array::decode_struct_array(
        window.bytes,
        window.bits,
        rows,
        schema.levels,
        schema.root,
        schema.names,
        declared,
        declared_names,
        leaves,
        paths,
        payloads,
    )
}

fn walk_struct(
    schema: Schema<'_>,
    window: Window<'_>,
    declared: &[u32],
    declared_names: &[u8],
    leaves: &mut [u32],
    paths: &mut [u8],
    payloads: &mut [u8],
) -> Result<Walked<Extent>, Refusal> {
    if schema.twelve {
        let root = schema.root;
        walk_twelve(
            root,
            window,
            declared,
            declared_names,
            leaves,
            paths,
            payloads,
        )
    } else {
        walk_own(
            schema,
            window,
            declared,
            declared_names,
            leaves,
            paths,
            payloads,
        )
    }
}

// The answer of the walk that is lent these outputs.
pub fn answer(
    call: Call<'_>,
    records: &mut [u32],
    paths: &mut [u8],
    payloads: &mut [u8],
) -> Answer {
    let mut declared_numbers = [0u32; lists::DECLARED_ROOM];
    match call {
        Call::Struct(schema, declared, window) => {
            let numbers = lists::unpack(declared.numbers, &mut declared_numbers);
            let names = declared.names;
            let r = walk_struct(schema, window, numbers, names, records, paths, payloads);
            answers::of_structs(r)
        }
        Call::Exact(declared, window) => {
            let numbers = lists::unpack(declared.numbers, &mut declared_numbers);
            let r = array::decode_struct_array_exact(
                window.bytes,
                window.bits,
                numbers,
                declared.names,
                records,
                paths,
                payloads,
            );
            answers::of_structs(r)
        }
        Call::Object(window) => {
            let r = array::decode_object_ref_array(window.bytes, window.bits, records);
            answers::of_objects(r)
        }
    }
}
