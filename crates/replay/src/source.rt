// The file of cases, read one case at a time.
use recorded::answers::Fault;
use std::io;
use std::io::{Read, Seek};
use words::input;

// Room for a case. `say` names what it takes.
pub const ROOM: usize = 1310720;

// Whether the file starts with the magic.
pub fn start(file: &mut impl Read) -> io::Result<bool> {
    let mut head = [0u8; 8];
    let n = input::fill(file, &mut head)?;
    Ok(n == 8 && head == *b"VRFCASE4")
}

// The next case, behind so many bytes of the file, in the front of the space; none where the file ends.
pub fn take<'a>(
    file: &mut (impl Read + Seek),
    read: u64,
    space: &'a mut [u8],
) -> Result<Option<&'a [u8]>, Fault> {
    let mut head = [0u8; 4];
    match input::fill(file, &mut head)? {
        4 => {}
        0 => {
            input::at_end(file, read as usize)?;
            return Ok(None);
        }
        _ => return Err(Fault::Cut),
    }
    let n = u32::from_le_bytes(head) as usize;
    if space.len() < n {
        return Err(Fault::Large);
    }
    let case = &mut space[..n];
    if input::fill(file, case)? < n {
        return Err(Fault::Cut);
    }
    Ok(Some(case))
}
