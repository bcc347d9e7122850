// What a walk's events do to the lent outputs: definitions and theorems; its only code is the records of leaves and pairs.
//
// The world is the counters, the positions and the lent contents; `apply` plays a list of events into it. The public
// answers and each buffer's final contents are functions of a call's inputs alone.
#![tactic(auto)]

pub mod records;

// A leaf, as it stands among the lent numbers.
#[derive(Clone, Copy)]
pub struct LeafRecord {
    // Where the path starts in the path bytes, and how many bytes it has.
    pub path_start: u32,
    pub path_length: u32,
    // 4294967295: the leaf is a kept tail.
    pub handle: u32,
    // How many bits the payload has, and where it starts in the payload bytes.
    pub payload_bits: u32,
    pub payload_start: u32,
    // The bit of the walked window at which the payload starts.
    pub window_start: u32,
}

// A pair, likewise.
#[derive(Clone, Copy)]
pub struct PairRecord {
    pub index: u32,
    pub guid: u32,
}
