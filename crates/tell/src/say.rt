// What is printed: columns and lines with a name.
use std::convert::AsSlice;
use std::io;

// The widest column.
pub const COLUMN: usize = 64;

// The text, and blanks behind it up to the width, at most a column of them.
pub fn left(out: &impl Print, s: &[u8], width: usize) -> io::Result<()> {
    out.write_all(s)?;
    let blanks = width.saturating_sub(s.len()).min(COLUMN);
    out.write_all(&[b' '; COLUMN][..blanks])
}

// A line with a name, text or any bytes, and a number behind it.
pub fn named(out: &impl Print, name: impl AsSlice<u8> + Drop, x: u64) -> io::Result<()> {
    left(out, name.as_slice(), 24)?;
    out.println(x)
}

// The n bytes from a, none where they don't lie in s.
pub fn part(s: &[u8], a: u32, n: u32) -> &[u8] {
    let start = a as usize;
    s.get(start..start + n as usize).unwrap_or(&[])
}
