// What the programs share: a file read to its end; answers on standard output, errors on standard error; bytes in hex; floats as
// patterns.
//
// Where something is written, the first word is the stream: `out`, standard output, for answers, and `err`, standard error, for
// errors. A write of an answer that fails is an error of its caller too, up to `main`, which says so last (`end_output`).
#![tactic(auto)]

use std::fmt;

mod answers;
pub mod error;
pub mod input;
mod output;

pub use answers::Answers;
pub use output::{Gathered, end_output};

// Bytes in hex, or `-` for none.
#[derive(Clone, Copy)]
pub struct Hex<'a>(pub &'a [u8]);

impl fmt::Display for Hex<'_> {
    fn fmt<W: fmt::Write>(&self, f: &mut fmt::Formatter<W>) -> fmt::Result {
        if self.0.is_empty() {
            write!(f, "-")?;
        }
        for x in self.0 {
            write!(f, "{x:02x}")?;
        }
        Ok(())
    }
}

// A float's pattern. A NaN, which no answer holds, has the pattern of the quiet one.

pub fn double_bits(x: f64) -> u64 {
    if x.is_nan() {
        return 0x7ff8_0000_0000_0000;
    }
    x.to_bits()
}

pub fn single_bits(x: f32) -> u32 {
    if x.is_nan() {
        return 0x7fc0_0000;
    }
    x.to_bits()
}
