// A file read to its end. The system answers a read with some of the bytes, fewer than were asked for if it likes; with none at the
// end; or with a failure, which is no end. A read that a signal interrupted has failed too, and is tried again.
//
// No contract can say which bytes are read: that is the operating system's word. What is proved is that every count lies in the
// buffer, and that a read always ends.
ghost use Rattle.std.specs.Prelude.{◌≡◌, length};
ghost use Rattle.words.specs.Input.{Moves, Fills, Holds};
ghost use Rattle.words.specs.declared.input.Unread.TheVariants.{Failed};

use crate::error;
use std::io::{ErrorKind, Read, Seek, SeekFrom};
use std::rt::Files;
use std::{fs, io};

// The file of that name, open for reading; none where it can't be opened, and standard error says why. std opens only files whose
// names are text.
pub fn open<R: Files>(rt: &R, err: &impl Print, path: &[u8]) -> Option<R::File> {
    let Ok(name) = std::str::from_utf8(path) else {
        error::text(err, path);
        error::say(err, ": a file is opened only by a name in UTF-8\n");
        return None;
    };
    match fs::open(rt, name) {
        Ok(file) => Some(file),
        Err(why) => {
            error::failed(err, path, why);
            None
        }
    }
}

// How often an interrupted read is tried again in all: std's own calls try for longer than a run takes.
const TRIES: u32 = 1000000;

// Why a file was not read whole.
#[derive(Clone, Copy)]
pub enum Unread {
    // The buffer is full and the file goes on.
    Longer,
    // The file ended at another place than its length says: it changed, or bytes of it were not given.
    Changed,
    // A read failed, or was interrupted too often, or the length couldn't be asked, and why.
    Failed(io::Error),
}

impl From<io::Error> for Unread {
    ghost from_gives = { λ why unread. unread ≡ Failed why };

    fn from(why: io::Error) -> Unread {
        Unread::Failed(why)
    }
}

// One read to the front of the buffer: so many bytes came, at least one; none at the end.
fn read_some(file: &mut impl Read, buf: &mut [u8]) -> io::Result<Option<usize>>
    ensures { Moves result (length buf.old) }
{
    match file.read(buf)? {
        0 => Ok(None),
        n => Ok(Some(n)),
    }
}

// Reads until the buffer is full or the file ends, and says how many bytes came: fewer than the buffer holds only at the end.
pub fn fill(file: &mut impl Read, buf: &mut [u8]) -> io::Result<usize>
    ensures { Fills result (length buf.old) }
{
    let mut done: usize = 0;
    let mut tries = TRIES;
    while done < buf.len() {
        match read_some(file, &mut buf[done..]) {
            Ok(Some(n)) => done += n,
            Ok(None) => return Ok(done),
            Err(why) if why.kind() == ErrorKind::Interrupted && 0 < tries => tries -= 1,
            Err(why) => return Err(why),
        }
    }
    Ok(done)
}

// The count, where the file's length agrees. A pipe or a terminal has no length, and its end is where no more is read.
pub fn at_end(file: &mut impl Seek, count: usize) -> Result<usize, Unread>
    ensures { Holds result count }
{
    match file.seek(SeekFrom::End(0)) {
        Ok(size) if size == count as u64 => Ok(count),
        Ok(_) => Err(Unread::Changed),
        Err(why) if why.kind() == ErrorKind::NotSeekable => Ok(count),
        Err(why) => Err(Unread::Failed(why)),
    }
}

// The whole file to the front of the buffer, read from where it stands, which is its start when it was just opened. Behind a full
// buffer one more byte is asked for.
pub fn whole(file: &mut (impl Read + Seek), buf: &mut [u8]) -> Result<usize, Unread>
    ensures { Holds result (length buf.old) }
{
    let count = fill(file, buf)?;
    if count == buf.len() && fill(file, &mut [0u8; 1])? == 1 {
        return Err(Unread::Longer);
    }
    at_end(file, count)
}
