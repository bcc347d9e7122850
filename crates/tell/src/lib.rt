// What is printed for a person: words, numbers and columns; floats; the schema; the counters and the verdict of a walk;
// refusals, with the rooms that `vrf` has. A refusal goes to standard error, everything else to standard output: where a call is refused nothing is printed there.
#![tactic(auto)]

pub mod levels;
pub mod refusals;
pub mod rooms;
pub mod say;
pub mod say_floats;
pub mod verdicts;
