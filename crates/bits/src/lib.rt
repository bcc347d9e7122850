// Bits of byte slices: the loads, field reads, copies and numbers that the readers and walkers are made of
// (vrf-bitio/src/lib.rs). The functions here ask for room by a `requires` and test nothing twice; the crate bitio has the
// same reads as calls that take any cursor. Decimals, which paths and labels are written with, and the sizes of document 01
// stand here too, since every crate above may want them.
//
// A position is a bit of the slice: eight to a byte, each byte's lowest first.

#![tactic(auto)]

pub mod copy;
pub mod decimal;
pub mod digits;
pub mod field;
pub mod integer;
pub mod load;
pub mod number;
pub mod sizes;

// A packed number that was found: its value, how many bytes it takes, and whether it is padded.
#[derive(Clone, Copy)]
pub struct Found {
    pub value: u32,
    pub bytes: u64,
    pub padded: bool,
}

// Why no packed number stands where one is due.
#[derive(Clone, Copy)]
pub enum Broken {
    // The window ends inside the byte after so many whole ones.
    Cut(u64),
    // The fifth byte says that another follows.
    GoesOn,
    // The fifth byte holds more than 15.
    Overflows,
}
