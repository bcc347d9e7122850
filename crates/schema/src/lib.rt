// Schema and declared tables (array/schema.rs): the layout that they keep, what they say of a handle, and labels.
//
// A schema row is five u32: its level, its kind, a handle, and two more, a and b. Kind 0 says that the handle is an array
// whose elements have level a; kind 1 that its name stands at a in the name pool, b bytes long. A declared row is a handle's start and length in the
// declared name pool. Every public call takes any tables.

#![tactic(auto)]

pub mod labels;
pub mod layout;
pub mod lookup;
pub mod said;
pub mod spans;
mod table;
pub mod twelve;

// The numbers of a row, and its two kinds, as C lays them out.
pub const ROW_SIZE: usize = 5;

pub const ARRAY_KIND: u32 = 0;

pub const NAME_KIND: u32 = 1;

// What C lends for none: the root level that means no schema, and the start that means no declared name.
pub const ABSENT: u32 = 4294967295;

// Where a name stands in its pool, and how many bytes it has.
#[derive(Clone, Copy)]
pub struct NameAt {
    pub start: u32,
    pub len: u32,
}

// A label: a name of the declared pool, a name of the schema's pool, or `_h` and the handle. A name's start and length stand for themselves
// here: a `NameAt` in a label is moved as one number of 64 bits, which makes a flat walk slower.
#[derive(Clone, Copy)]
pub enum Label {
    Declared(u32, u32),
    Named(u32, u32),
    Plain,
}

// What the schema says of a handle of a level: the level of its elements where it is an array, and its name.
#[derive(Clone, Copy)]
pub struct Entry {
    pub elements: Option<u32>,
    pub name: Option<NameAt>,
}

// The rows of a level: its first, and the one after its last; both 0 where it has none.
#[derive(Clone, Copy, PartialEq, Eq, PartialOrd, Ord, Hash, Debug)]
pub struct Span {
    pub first: usize,
    pub last: usize,
}

// A buffer was too short for the twelve levels: what both need, u32 of rows and bytes of names.
#[derive(Clone, Copy)]
pub struct Short {
    pub rows: usize,
    pub names: usize,
}
