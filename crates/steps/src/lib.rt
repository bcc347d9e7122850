// One step of a walk (array.rs): what stands at a position, what a field is, and what a step counts and writes. The walkers'
// cycle only matches, lends and calls; every test on bits and every write stands here.
//
// A position is a bit of a piece's bytes. The counters and the places of the next writes are the tally, which is lent with the
// outputs; a run that does not fit its output is not written, and its place is counted all the same, so that a walk lent empty
// outputs measures. `records` takes leaves, in an object walk pairs.
#![tactic(auto)]

pub mod exits;
pub mod heads;
pub mod kinds;
pub mod leaves;
pub mod objects;
pub mod parts;
pub mod paths;
pub mod pieces;
pub mod runs;
pub mod tables;
pub mod tally;
pub mod walks;
pub mod writes;

use schema::Label;

// A packed number, the bit behind it, and whether it is padded.
#[derive(Clone, Copy)]
pub struct NumberRead {
    pub value: u32,
    pub next: u64,
    pub padded: bool,
}

// What stands where a level, an element or a field is due.
#[derive(Clone, Copy)]
pub enum Head {
    // The window's end.
    Ended,
    // A number that can't be read, an index that isn't below the count, or a payload that passes the window.
    Failed,
    // Zero, and the bit behind it.
    Closed(u64),
    // More than is allowed, and where the tail starts that is kept.
    Limit(u64),
    // A level's count, an element's index or a field's handle; where its body starts, and the bit behind a field's body.
    Go { value: u32, body: u64, next: u64 },
}

// What stands behind the dot of a leaf's path. No Option of a label, which would be no plainer: `None` doesn't say `_raw`.
#[derive(Clone, Copy)]
pub enum Tag {
    Label(Label),
    Raw,
}

// What a field is.
#[derive(Clone, Copy)]
pub enum Kind {
    // A field of the object walk.
    Object,
    // An array with no payload.
    Nothing,
    Leaf(Label),
    // An array below the last level.
    Deep(Label),
    // An array, and the level of its elements.
    Array(u32, Label),
}
