// Words on standard error, where errors of all kinds go: a wrong command line, a file that can't be read, a refusal.
ghost use Rattle.std.specs.Prelude.{◌≤◌};

use crate::output;
use std::fmt::{Display, Write};
use std::{fmt, io};

pub fn text(err: &impl Print, s: &[u8]) {
    let _ = output::put(err, s);
}

// Standard error, of which a write that fails is given up, and the next one tried.
#[derive(Drop)]
struct Errors<'a, P>(&'a P);

impl<P: Print> fmt::Write for Errors<'_, P> {
    fn write_str(&mut self, s: &str) -> fmt::Result {
        text(self.0, s.as_bytes());
        Ok(())
    }
}

pub fn say<D: Display + Drop>(err: &impl Print, what: D) {
    let _ = write!(Errors(err), "{what}");
}

// The front of what is written to it: no heap, so a room of its own.
#[derive(Drop)]
struct Front {
    bytes: [u8; 256],
    len: usize,
    ghost inside: { len ≤ 256 },
}

impl fmt::Write for Front {
    fn write_str(&mut self, s: &str) -> fmt::Result {
        for b in s.as_bytes() {
            if self.len < 256 {
                self.bytes[self.len] = *b;
                self.len += 1;
            }
        }
        Ok(())
    }
}

// What std puts behind the system's words for an error, before its number.
const BEFORE_NUMBER: &[u8] = b" (os error ";

// The words alone. A `position` among windows is no plainer: the cut has to be proved to lie in them.
fn without_number(s: &[u8]) -> &[u8] {
    for i in 0..s.len() {
        if s[i..].starts_with(BEFORE_NUMBER) {
            return &s[..i];
        }
    }
    s
}

// A line: what failed, and why.
pub fn failed(err: &impl Print, what: &[u8], why: io::Error) {
    let mut reason = Front {
        bytes: [0; 256],
        len: 0,
    };
    let _ = write!(reason, "{why}");
    text(err, what);
    text(err, b": ");
    text(err, without_number(&reason.bytes[..reason.len]));
    text(err, b"\n");
}
