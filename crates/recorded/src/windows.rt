// The window that a case reads and, behind it, the recorded answer.
use crate::answers;
use crate::answers::{Answer, Fault, Outcome, Stop};
use crate::fields::{Case, Parts};
use bitio::Cursor;

#[derive(Clone, Copy)]
pub struct Window<'a> {
    pub skip: u64,
    pub bits: u64,
    pub bytes: &'a [u8],
}

impl<'a> Window<'a> {
    pub fn of(parts: &mut Parts<'a>) -> Result<Window<'a>, Fault> {
        Ok(Window {
            skip: parts.number()?,
            bits: parts.number()?,
            bytes: parts.run()?,
        })
    }

    // The window of the first `bits` bits of the bytes, with the cursor at bit `skip`; or the answer of the call that refused it.
    fn place(self) -> Result<Cursor, Answer> {
        let c = bitio::open(self.bytes, self.bits).map_err(|r| answers::refused(r, 0))?;
        let pos = bitio::skip_bits(self.bytes, c, self.skip).map_err(|r| answers::refused(
            r, c.pos,
        ))?;
        Ok(Cursor { pos, ..c })
    }

    // The answer of a read where the cursor stands.
    pub fn answer<F: FnOnce(&[u8], Cursor) -> Answer>(self, read: F) -> Answer
        requires { F.IsAlwaysCallable read }
    {
        match self.place() {
            Ok(c) => read(self.bytes, c),
            Err(refused) => refused,
        }
    }
}

// A case whose last parts are a window and the answer of one read in it.
pub fn replay<F: FnOnce(&[u8], Cursor) -> Answer>(
    out: &impl Print,
    case: Case<'_>,
    read: F,
) -> Result<Outcome, Stop>
    requires { F.IsAlwaysCallable read }
{
    let mut parts = case.parts;
    let window = Window::of(&mut parts)?;
    let expected = answers::recorded(&mut parts)?;
    parts.end()?;
    Ok(answers::judge(out, case.id, expected, window.answer(read))?)
}
