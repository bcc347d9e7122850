// What is written: answers to standard output, and errors of every kind to standard error. The system may take fewer bytes than it
// is given, and is then given the rest; a write that a signal interrupted is tried again.
//
// The first write of an answer that fails ends the output: each function that writes answers gives the failure to its caller, up to
// `main`, and writes nothing more. Standard error says so as its last words, so that nothing written later appears on either: no
// line stands behind one that was lost, and no verdict behind a lost line.
//
// Nothing can be said of a write to standard error that fails.
ghost use Rattle.std.specs.Prelude.{◌≡◌, ◌≤◌, length};
ghost use Rattle.words.specs.Output.{Takes};

use crate::error;
use std::fmt::{Display, Write};
use std::io::ErrorKind;
use std::{fmt, io};

// How often a write that takes nothing is tried again: std's own gives up at the first that takes none.
const TRIES: u32 = 1000000;

// Why a write took no byte.
#[derive(Drop)]
enum Untaken {
    // It was interrupted, or took none: another may go through.
    Passing(io::Error),
    Failed(io::Error),
}

// One write: how many bytes were taken, at least one, or why none was.
fn put_some(to: &impl Print, s: &[u8]) -> Result<usize, Untaken>
    ensures { Takes result (length s.now) }
{
    match to.write_some(s) {
        Ok(0) => Err(Untaken::Passing(io::Error::from(ErrorKind::WriteZero))),
        Ok(n) => Ok(n),
        Err(why) if why.kind() == ErrorKind::Interrupted => Err(Untaken::Passing(why)),
        Err(why) => Err(Untaken::Failed(why)),
    }
}

// Writes all of the bytes; where that was not done, why.
pub fn put(to: &impl Print, s: &[u8]) -> io::Result<()> {
    let mut rest = s;
    let mut tries = TRIES;
    while !rest.is_empty() {
        match put_some(to, rest) {
            Ok(n) => rest = &rest[n..],
            Err(Untaken::Passing(_)) if 0 < tries => tries -= 1,
            Err(Untaken::Passing(why)) => return Err(why),
            Err(Untaken::Failed(why)) => return Err(why),
        }
    }
    Ok(())
}

// The pieces of one formatted value, gathered: a value takes one write, or few, however many pieces the formatter makes of it.
#[derive(Drop)]
struct Pieces<'a, P> {
    to: &'a P,
    bytes: [u8; 256],
    len: usize,
    // What came of the writes. Behind one that failed nothing is written.
    written: io::Result<()>,
    ghost inside: { len ≤ 256 },
}

impl<'a, P: Print> Pieces<'a, P> {
    fn none(to: &'a P) -> Pieces<'a, P> {
        Pieces {
            to,
            bytes: [0; 256],
            len: 0,
            written: Ok(()),
        }
    }

    // Writes what is gathered.
    fn flush(&mut self) -> io::Result<()>
        ensures { self.new.len ≡ 0 }
    {
        let len = self.len;
        self.len = 0;
        if self.written.is_ok() {
            self.written = put(self.to, &self.bytes[..len]);
        }
        self.written
    }

    // Writes what is left of the value, of one too whose formatting failed.
    fn end(mut self, formatted: fmt::Result) -> io::Result<()> {
        self.flush()?;
        Ok(formatted?)
    }
}

impl<P: Print> Write for Pieces<'_, P> {
    fn write_str(&mut self, s: &str) -> fmt::Result {
        for b in s.as_bytes() {
            if self.len == 256 {
                self.flush().map_err(|_| fmt::Error)?;
            }
            self.bytes[self.len] = *b;
            self.len += 1;
        }
        Ok(())
    }
}

// Standard output, to which the programs print: what the functions that write answers are handed, so that all of it goes by `put`.
#[derive(Drop)]
pub struct Gathered<P>(pub P);

// `print` and `println` are calls: compiled into their callers, each would have its own pieces in the caller's stack.
impl<P: Print> Print for Gathered<P> {
    #[inline(never)]
    fn print<D: Display + Drop>(&self, value: D) -> io::Result<()> {
        let mut pieces = Pieces::none(&self.0);
        let formatted = pieces.write(value);
        pieces.end(formatted)
    }

    #[inline(never)]
    fn println<D: Display + Drop>(&self, value: D) -> io::Result<()> {
        let mut pieces = Pieces::none(&self.0);
        let formatted = pieces.writeln(value);
        pieces.end(formatted)
    }

    fn write_all(&self, bytes: &[u8]) -> io::Result<()> {
        put(&self.0, bytes)
    }

    fn write_some(&self, bytes: &[u8]) -> io::Result<usize> {
        self.0.write_some(bytes)
    }
}

// Said last, where a write of an answer failed.
pub fn end_output(err: &impl Print, why: io::Error) {
    error::failed(err, b"standard output", why);
    error::say(
        err,
        "the output is not whole: a write failed, and nothing behind it was written\n",
    );
}
