// Outputs: filled with a pattern before a call, compared after it with a list of a case.

// What an output holds.
pub trait Listed: Copy + PartialEq {
    const PATTERN: Self;

    // The first of a list, with its low byte first, and the rest.
    fn first(list: &[u8]) -> Option<(Self, &[u8])>;
}

impl Listed for u8 {
    const PATTERN: u8 = 0xee;

    fn first(list: &[u8]) -> Option<(u8, &[u8])> {
        let (byte, rest) = list.split_first()?;
        Some((*byte, rest))
    }
}

impl Listed for u32 {
    const PATTERN: u32 = 0xeeee_eeee;

    fn first(list: &[u8]) -> Option<(u32, &[u8])> {
        let (bytes, rest) = list.split_first_chunk()?;
        Some((u32::from_le_bytes(*bytes), rest))
    }
}

impl Listed for i32 {
    const PATTERN: i32 = 0x6eee_eeee;

    fn first(list: &[u8]) -> Option<(i32, &[u8])> {
        let (bytes, rest) = list.split_first_chunk()?;
        Some((i32::from_le_bytes(*bytes), rest))
    }
}

pub fn fill<T: Listed>(output: &mut [T]) {
    for x in output.iter_mut() {
        *x = T::PATTERN;
    }
}

// Whether the output starts with what the list has, and goes on with the pattern.
pub fn holds<T: Listed>(output: &[T], list: &[u8]) -> bool {
    let mut rest = list;
    for x in output {
        let held = match T::first(rest) {
            Some((held, further)) => {
                rest = further;
                held
            }
            None => T::PATTERN,
        };
        if *x != held {
            return false;
        }
    }
    rest.is_empty()
}
