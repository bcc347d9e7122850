// Labels: a leaf is called by its declaration, by the schema where there is none, and by `_h` and its number where there is
// neither; a declaration says nothing of a container.
ghost use Rattle.std.specs.Prelude.{◌≡◌};
ghost use Rattle.schema.specs.Labels.{by_schema_lem, by_declaration_lem, container_label_from_lem, leaf_label_from_lem, container_label_of, leaf_label_of, label_length_lem, name_in, label_part_lem};

use crate::lookup::{declared_name, name_of};
use crate::{Entry, Label, NameAt};
use bits::digits::decimal_length;

// The label that the schema's name gives.
#[tactic(auto, unfolding(crate::specs::Labels::by_schema_lem))]
fn by_schema(name: Option<NameAt>) -> Label
    ensures { result ≡ by_schema_lem name }
{
    match name {
        Some(n) => Label::Named(n.start, n.len),
        None => Label::Plain,
    }
}

// The declared name's label, else the other.
#[tactic(auto, unfolding(crate::specs::Labels::by_declaration_lem))]
fn by_declaration(name: Option<NameAt>, other: Label) -> Label
    ensures { result ≡ by_declaration_lem name other }
{
    match name {
        Some(n) => Label::Declared(n.start, n.len),
        None => other,
    }
}

// The label of a container whose entry is known.
pub fn container_label_from(entry: Entry) -> Label
    ensures { result ≡ container_label_from_lem entry }
{
    by_schema(entry.name)
}

// The label of a leaf whose entry is known. A declared row that starts at 4294967295 (ABSENT) declares no name.
pub fn leaf_label_from(entry: Entry, declared: &[u32], handle: u32) -> Label
    ensures { result ≡ leaf_label_from_lem entry declared.now handle }
{
    by_declaration(declared_name(declared, handle), by_schema(entry.name))
}

// A container's label. Level 4294967295 (ABSENT), where no schema is lent, has no row.
#[tactic(auto, unfolding(crate::specs::Labels::container_label_lem))]
pub fn container_label(rows: &[u32], level: u32, handle: u32) -> Label
    ensures { result ≡ container_label_of rows.now level handle }
{
    by_schema(name_of(rows, level, handle))
}

// A leaf's label. A declared row that starts at 4294967295 (ABSENT) declares no name.
#[tactic(auto, unfolding(crate::specs::Labels::leaf_label, crate::specs::Labels::container_label_lem))]
pub fn label_of(rows: &[u32], declared: &[u32], level: u32, handle: u32) -> Label
    ensures { result ≡ leaf_label_of rows.now declared.now level handle }
{
    by_declaration(
        declared_name(declared, handle),
        container_label(rows, level, handle),
    )
}

// How many bytes a label has.
#[tactic(auto, using(bits::proofs::DecimalLaws::decimal_some), unfolding(crate::specs::Labels::label_length_lem))]
pub fn label_length(label: Label, handle: u32) -> usize
    ensures { result ≡ label_length_lem handle label }
{
    match label {
        Label::Declared(_, len) => len as usize,
        Label::Named(_, len) => len as usize,
        Label::Plain => 2 + decimal_length(handle),
    }
}

// The bytes of a name in its pool; none where it does not lie there.
#[tactic(auto, unfolding(crate::specs::Labels::name_in))]
fn part_of<'a>(pool: &'a [u8], name: NameAt) -> &'a [u8]
    ensures { result.now ≡ name_in pool.now name.start name.len }
{
    let start = name.start as usize;
    let end = start + (name.len as usize);
    pool.get(start..end).unwrap_or(&[])
}

// The part of the one pool or the other that a label names; none for a plain label, and where it does not lie in its pool.
#[tactic(auto, unfolding(crate::specs::Labels::label_part_lem))]
pub fn label_part<'a>(declared_names: &'a [u8], names: &'a [u8], label: Label) -> &'a [u8]
    ensures { result.now ≡ label_part_lem declared_names.now names.now label }
{
    match label {
        Label::Declared(start, len) => part_of(declared_names, NameAt { start, len }),
        Label::Named(start, len) => part_of(names, NameAt { start, len }),
        Label::Plain => &[],
    }
}
