// Recorded cases: what stands in one, our answer beside the recorded one, what a call is lent and leaves there, what is printed
// of a difference, and the kinds that call the bit reader. The program `replay` has the file's format, the other kinds and the
// loop over the cases.
#![tactic(auto)]

pub mod answers;
pub mod copied;
pub mod fields;
pub mod fixed;
pub mod lists;
pub mod packed;
pub mod patterns;
pub mod rooms;
pub mod say;
pub mod serialized;
pub mod windows;
