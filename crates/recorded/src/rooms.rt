// The trials of a case whose call is lent three outputs, and how much of each is lent.
//
// Of a walk the outputs are its records, path bytes and payload bytes; of a fast-array body its ids, items and fields. A room
// counts numbers or bytes, not records. A trial lends what the call needs, another seven more of each, so that a whole record
// would fit behind, and three more one less than it needs of the first, the second and the third output.
use crate::say;
use std::{fmt, io};

#[derive(Clone, Copy)]
pub struct Room {
    pub first: usize,
    pub second: usize,
    pub third: usize,
}

#[derive(Clone, Copy, PartialEq, Eq)]
enum Trial {
    Full,
    Longer,
    ShortOfFirst,
    ShortOfSecond,
    ShortOfThird,
}

const TRIALS: [Trial; 5] = [
    Trial::Full,
    Trial::Longer,
    Trial::ShortOfFirst,
    Trial::ShortOfSecond,
    Trial::ShortOfThird,
];

impl Trial {
    // Whether the call has to be refused for its needs.
    fn is_short(self) -> bool {
        !matches!(self, Trial::Full | Trial::Longer)
    }
}

impl Room {
    const NOTHING: Room = Room {
        first: 0,
        second: 0,
        third: 0,
    };

    // Seven more of each.
    fn more(self) -> Room {
        Room {
            first: self.first.saturating_add(7),
            second: self.second.saturating_add(7),
            third: self.third.saturating_add(7),
        }
    }

    fn fits(self, held: Room) -> bool {
        self.first <= held.first && self.second <= held.second && self.third <= held.third
    }

    // What the trial lends of a call with these needs; none where it needs nothing of the output that is to be short.
    fn lent(self, trial: Trial) -> Option<Room> {
        let Room {
            first,
            second,
            third,
        } = self;
        Some(match trial {
            Trial::Full => self,
            Trial::Longer => self.more(),
            Trial::ShortOfFirst => Room {
                first: first.checked_sub(1)?,
                second,
                third,
            },
            Trial::ShortOfSecond => Room {
                first,
                second: second.checked_sub(1)?,
                third,
            },
            Trial::ShortOfThird => Room {
                first,
                second,
                third: third.checked_sub(1)?,
            },
        })
    }
}

// Whether the call of a case with these needs passes all its trials, up to the first that fails. `passes` makes it, lent so much
// of the outputs; where that is short it has to be refused for its needs. Where they aren't recorded, or the longest trial doesn't
// fit what is held, the call is lent nothing.
pub fn pass<F: FnMut(Room, bool) -> io::Result<bool>>(
    needs: Option<Room>,
    held: Room,
    mut passes: F,
) -> io::Result<bool>
    requires { F.IsAlwaysCallable passes }
{
    let Some(needs) = needs.filter(|needs| needs.more().fits(held)) else {
        return passes(Room::NOTHING, true);
    };
    for trial in TRIALS {
        if let Some(room) = needs.lent(trial) {
            if !passes(room, trial.is_short())? {
                return Ok(false);
            }
        }
    }
    Ok(true)
}

// So much of an output, or all of it.
pub fn front<T>(output: &mut [T], n: usize) -> &mut [T] {
    let end = n.min(output.len());
    &mut output[..end]
}

// Whether a call answers what it has to, and leaves no output that is `other`; the line that says otherwise is printed.
pub fn judge<T: PartialEq + fmt::Display, L: fmt::Display + Drop>(
    out: &impl Print,
    id: &[u8],
    expected: &T,
    got: &T,
    other: Option<&str>,
    lent: L,
) -> io::Result<bool> {
    let why = match other {
        _ if expected != got => "",
        Some(why) => why,
        None => return Ok(true),
    };
    say::case(out, id)?;
    println!(out; "{expected}, got {got}{why}, lent {lent}")?;
    Ok(false)
}
