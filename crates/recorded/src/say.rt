// What the program prints.
use crate::answers::Fault;
use std::convert::AsSlice;
use std::{fmt, io};
use words::error;

// The front of a difference's line.
pub fn case(out: &impl Print, id: &[u8]) -> io::Result<()> {
    print!(out; "case ")?;
    out.write_all(id)?;
    print!(out; ": expected ")
}

impl fmt::Display for Fault {
    fn fmt<W: fmt::Write>(&self, f: &mut fmt::Formatter<W>) -> fmt::Result {
        let reason = match self {
            Fault::Unread(_) => "the file can't be read on from here",
            Fault::Changed => "the file ends there, and its length says otherwise",
            Fault::Cut => "the file ends inside of it",
            Fault::Large => "it has more than 1310720 bytes",
            Fault::Kind => "its kind is not known",
            Fault::Layout => "its parts do not fill it exactly",
            Fault::Number => "a number in it is none that its kind takes",
            Fault::List => {
                "it has rows of more than 2600 numbers, or declared names of more than 2100"
            }
        };
        write!(f, "{reason}")
    }
}

// A line on standard error, of text or any bytes.
pub fn failed(err: &impl Print, why: impl AsSlice<u8> + Drop) {
    error::text(err, b"replay: ");
    error::text(err, why.as_slice());
    error::text(err, b"\n");
}

// That a read failed, and why.
pub fn unread(err: &impl Print, why: io::Error) {
    error::failed(err, b"replay: a read of the file fails", why);
}

// Why the replay stopped at the case of that number, counted from 1.
pub fn fault(err: &impl Print, fault: Fault, case_number: u64) {
    if let Fault::Unread(why) = fault {
        unread(err, why);
    }
    error::say(
        err,
        format_args!("replay: stopped at case number {case_number}: {fault}\n"),
    );
}
