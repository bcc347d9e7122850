// What stands in a case: its kind, its id, numbers and runs of bytes, taken from its front one after another.
use crate::answers::Fault;

// The rest of a case. Where a part doesn't fit, nothing behind it does either.
#[derive(Clone, Copy)]
pub struct Parts<'a> {
    rest: &'a [u8],
}

// A case: its kind's letter, its id, and what stands behind them.
#[derive(Clone, Copy)]
pub struct Case<'a> {
    pub kind: u8,
    pub id: &'a [u8],
    pub parts: Parts<'a>,
}

// What a number says that is 1 for yes and 0 for no: no other is one that a case may have.
pub fn flag(number: u64) -> Result<bool, Fault> {
    match number {
        0 => Ok(false),
        1 => Ok(true),
        _ => Err(Fault::Number),
    }
}

impl<'a> Case<'a> {
    pub fn of(s: &'a [u8]) -> Result<Case<'a>, Fault> {
        let [kind, length, rest @ ..] = s else {
            return Err(Fault::Layout);
        };
        let mut parts = Parts { rest };
        let id = parts.bytes(u64::from(*length))?;
        Ok(Case {
            kind: *kind,
            id,
            parts,
        })
    }
}

impl<'a> Parts<'a> {
    fn unfit<T>(&mut self) -> Result<T, Fault> {
        self.rest = &[];
        Err(Fault::Layout)
    }

    // So many bytes.
    fn bytes(&mut self, n: u64) -> Result<&'a [u8], Fault> {
        match self.rest.split_at_checked(n as usize) {
            Some((part, rest)) => {
                self.rest = rest;
                Ok(part)
            }
            None => self.unfit(),
        }
    }

    pub fn number(&mut self) -> Result<u64, Fault> {
        match self.rest.split_first_chunk() {
            Some((number, rest)) => {
                self.rest = rest;
                Ok(u64::from_le_bytes(*number))
            }
            None => self.unfit(),
        }
    }

    // A number below 2^32; a larger one counts as a part that doesn't fit.
    pub fn short_number(&mut self) -> Result<u32, Fault> {
        match u32::try_from(self.number()?) {
            Ok(number) => Ok(number),
            Err(_) => self.unfit(),
        }
    }

    pub fn numbers<const N: usize>(&mut self) -> Result<[u64; N], Fault> {
        let mut numbers = [0; N];
        for number in numbers.iter_mut() {
            *number = self.number()?;
        }
        Ok(numbers)
    }

    // A run: how many bytes, and the bytes.
    pub fn run(&mut self) -> Result<&'a [u8], Fault> {
        let n = self.number()?;
        self.bytes(n)
    }

    // So many u32.
    pub fn words(&mut self, count: u64) -> Result<&'a [u8], Fault> {
        self.bytes(count.saturating_mul(4))
    }

    // All bytes that are left.
    pub fn rest(self) -> &'a [u8] {
        self.rest
    }

    // Nothing stands behind the parts.
    pub fn end(self) -> Result<(), Fault> {
        if self.rest.is_empty() {
            Ok(())
        } else {
            Err(Fault::Layout)
        }
    }
}
