// What a walk of an array means (array.rs and its header): definitions and theorems; its only code is which walks there are.
//
// A window is a number with a length, a walk is a list of events, and every answer is read off that list.

#![tactic(auto)]

// The walks: of an array of structs, of one without schema and trailer, of an array of object references.
#[derive(Clone, Copy)]
pub enum Walk {
    Struct,
    Exact,
    Object,
}
