// The file with the window. What is wrong with it is said on standard error.
use bits::sizes::LONGEST_WINDOW;
use std::env::{Env, FillError};
use std::io;
use std::io::{Read, Seek};
use std::rt::Files;
use words::input::Unread;
use words::{error, input};

// The bytes of the longest window.
pub const ROOM: usize = (LONGEST_WINDOW as usize) / 8;

fn complain(err: &impl Print, path: &[u8], why: &str) {
    error::text(err, path);
    error::say(err, format_args!(": {why}\n"));
}

// Why the file was not read.
fn say_unread(err: &impl Print, path: &[u8], why: Unread) {
    let words = match why {
        Unread::Longer => "the file has more than 65536 bytes; a window has at most 524288 bits",
        Unread::Changed => {
            "the file's length is not that of the bytes read: it changed, or its end came early; nothing is said of its window"
        }
        Unread::Failed(why) => {
            error::failed(err, path, why);
            "the file was not read to its end, so nothing is said of its window"
        }
    };
    complain(err, path, words);
}

// The open file, in the front of the buffer.
fn read<'a>(
    err: &impl Print,
    path: &[u8],
    file: &mut (impl Read + Seek),
    buf: &'a mut [u8],
) -> Option<&'a [u8]> {
    match input::whole(file, buf) {
        Ok(n) => Some(&buf[..n]),
        Err(why) => {
            say_unread(err, path, why);
            None
        }
    }
}

// Why there is no word to open, in the system's words: it is missing, or longer than a path.
fn no_word(why: FillError) -> io::Error {
    match why {
        FillError::NotPresent => io::Error::from_raw_os_error(22),
        FillError::TooLong => io::Error::from_raw_os_error(36),
    }
}

// The bytes of the file that is named at the place, in the front of the buffer; they may be none. Where it couldn't be taken, why is
// said.
pub fn fetch<'a, R: Env + Files>(
    rt: &R,
    err: &impl Print,
    at: usize,
    buf: &'a mut [u8],
) -> Option<&'a [u8]> {
    let mut word = [0u8; 4096];
    let path = match rt.arg(at, &mut word) {
        Ok(n) => &word[..n],
        Err(why) => {
            error::failed(err, b"FILE", no_word(why));
            return None;
        }
    };
    let mut file = input::open(rt, err, path)?;
    read(err, path, &mut file, buf)
}
