// Standard output where each piece of a formatted value is a write of its own, as a stream wants it that takes short writes alone.
// The programs hand `Gathered`.
use crate::output::put;
use std::fmt::Display;
use std::io;
use std::io::Write;

// The pieces of what is formatted, each written whole.
#[derive(Drop)]
struct Apart<'a, P>(&'a P);

impl<P: Print> Write for Apart<'_, P> {
    fn write(&mut self, buf: &[u8]) -> io::Result<usize> {
        self.write_all(buf)?;
        Ok(buf.len())
    }

    fn flush(&mut self) -> io::Result<()> {
        Ok(())
    }

    fn write_all(&mut self, buf: &[u8]) -> io::Result<()> {
        put(self.0, buf)
    }
}

#[derive(Drop)]
pub struct Answers<P>(pub P);

impl<P: Print> Print for Answers<P> {
    fn print<D: Display + Drop>(&self, value: D) -> io::Result<()> {
        Apart(&self.0).write_fmt(value)
    }

    fn println<D: Display + Drop>(&self, value: D) -> io::Result<()> {
        Apart(&self.0).writeln(value)
    }

    fn write_all(&self, bytes: &[u8]) -> io::Result<()> {
        put(&self.0, bytes)
    }

    fn write_some(&self, bytes: &[u8]) -> io::Result<usize> {
        self.0.write_some(bytes)
    }
}

#[cfg(test)]
mod tests {
    use super::Answers;
    use crate::{Gathered, Hex};
    use std::cell::Cell;
    use std::fmt::Display;
    use std::io;
    use std::io::ErrorKind;

    // Takes two bytes at once, by `write_some`, and refuses all else.
    #[derive(Drop)]
    struct Narrow {
        taken: Cell<usize>,
    }

    fn refusal() -> io::Error {
        io::Error::from(ErrorKind::Other)
    }

    impl Print for Narrow {
        fn print<V: Display + Drop>(&self, _: V) -> io::Result<()> {
            Err(refusal())
        }

        fn println<V: Display + Drop>(&self, _: V) -> io::Result<()> {
            Err(refusal())
        }

        fn write_all(&self, _: &[u8]) -> io::Result<()> {
            Err(refusal())
        }

        fn write_some(&self, bytes: &[u8]) -> io::Result<usize> {
            if 2 < bytes.len() {
                return Err(refusal());
            }
            self.taken.set(self.taken.get().wrapping_add(bytes.len()));
            Ok(bytes.len())
        }
    }

    fn untouched() -> Narrow {
        Narrow {
            taken: Cell::new(0),
        }
    }

    #[test]
    fn a_piece_is_a_write(rt: HostRuntime) {
        let three = [0x5a; 3];
        let apart = Answers(untouched());
        assert!(rt; apart.print(Hex(&three)).is_ok());
        assert_eq!(rt; apart.0.taken.get(), 6);
        assert!(rt; apart.println(Hex(&three)).is_ok());
        assert_eq!(rt; apart.0.taken.get(), 13);
        assert!(rt; apart.write_all(b"ab").is_ok());
        assert!(rt; apart.write_some(b"c").is_ok());
        assert_eq!(rt; apart.0.taken.get(), 16);
        assert!(rt; apart.write_all(b"abc").is_err());
        let gathered = Gathered(untouched());
        assert!(rt; gathered.print(Hex(&three)).is_err());
        assert_eq!(rt; gathered.0.taken.get(), 0);
    }
}
