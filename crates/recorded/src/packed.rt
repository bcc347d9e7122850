// Kind P: a packed number. An accepted answer's values are the number, the bytes that it took, and 1 if it is padded.
use crate::answers::{Answer, Outcome, Stop};
use crate::fields::Case;
use crate::{answers, windows};
use bitio::Cursor;

fn read(bytes: &[u8], c: Cursor) -> Answer {
    let read = bitio::read_int_packed(bytes, c);
    match read {
        Ok(x) => {
            let n = x.value;
            let value = u64::from(n.value);
            let taken = u64::from(n.bytes);
            let padded = u64::from(n.padded);
            answers::answer_of(0, value, taken, padded, x.next)
        }
        Err(r) => answers::refused(r, c.pos),
    }
}

pub fn replay(out: &impl Print, case: Case<'_>) -> Result<Outcome, Stop> {
    windows::replay(out, case, read)
}
