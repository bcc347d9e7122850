// Kind F: a fast-array body, with buffers that are exactly full, longer, and too short.
use fastarray::said::said;
use fastarray::{ChecksumMode, Delta, Refusal};
use recorded::answers::{Answer, Fault, Outcome, SHORT, Stop, outcome_of};
use recorded::fields::{Case, Parts};
use recorded::rooms::Room;
use recorded::{answers, fields, patterns, rooms};
use std::{fmt, io};

// The call's inputs, without its buffers.
#[derive(Clone, Copy)]
struct Call<'a> {
    bits: u32,
    mode: ChecksumMode,
    bytes: &'a [u8],
}

// What a call says: its answer, and how many padded numbers were read.
#[derive(Clone, Copy, PartialEq, Eq)]
struct Told {
    answer: Answer,
    padded: u64,
}

// The two keys, and what is in the buffers.
#[derive(Clone, Copy)]
struct Lists<'a> {
    keys: &'a [u8],
    deleted: &'a [u8],
    items: &'a [u8],
    fields: &'a [u8],
}

// What is recorded of a body: what it says, and its lists. One that is refused has none.
#[derive(Clone, Copy)]
struct Recorded<'a> {
    told: Told,
    lists: Lists<'a>,
}

// Buffers for what a window of 524,288 bits can hold, and seven more: 16,379 deleted ids, or 13,103 items of two numbers.

const ID_ROOM: usize = 16386;

const ITEM_ROOM: usize = 26213;

// ---- what is recorded, and what a call says

fn told_of(answer: Answer, padded: u64) -> Told {
    Told { answer, padded }
}

impl<'a> Lists<'a> {
    const NONE: Lists<'static> = Lists {
        keys: &[],
        deleted: &[],
        items: &[],
        fields: &[],
    };

    // Of a body that says so many of each.
    fn of(answer: Answer, parts: &mut Parts<'a>) -> Result<Lists<'a>, Fault> {
        Ok(Lists {
            keys: parts.words(2)?,
            deleted: parts.words(answer.first)?,
            items: parts.words(answer.second.saturating_mul(2))?,
            fields: parts.words(answer.third.saturating_mul(3))?,
        })
    }

    fn room(self) -> Room {
        Room {
            first: self.deleted.len() / 4,
            second: self.items.len() / 4,
            third: self.fields.len() / 4,
        }
    }
}

impl<'a> Recorded<'a> {
    fn of(parts: &mut Parts<'a>) -> Result<Recorded<'a>, Fault> {
        let answer = answers::recorded(parts)?;
        let told = told_of(answer, parts.number()?);
        let lists = if answer.number == 0 {
            Lists::of(answer, parts)?
        } else {
            Lists::NONE
        };
        parts.end()?;
        Ok(Recorded { told, lists })
    }

    // What the body has to say where a buffer is short: the refusal for its needs, and nothing in the buffers.
    fn refused(self) -> Recorded<'a> {
        let a = self.told.answer;
        let needs = answers::answer_of(SHORT, a.first, a.second, a.third, 0);
        Recorded {
            told: told_of(needs, 0),
            lists: Lists::NONE,
        }
    }
}

fn refused(why: Refusal) -> Told {
    let s = said(Err(why));
    let answer = answers::answer_of(
        u64::from(s.number),
        u64::from(s.deletes),
        u64::from(s.items),
        u64::from(s.fields),
        0,
    );
    told_of(answer, 0)
}

// Of a body the deletes, items and fields and, as the cursor, the bits used.
fn told_by(r: Result<Delta, Refusal>) -> Told {
    match r {
        Ok(delta) => {
            let d = u64::from(delta.deletes);
            let i = u64::from(delta.changes);
            let f = u64::from(delta.fields);
            let used = u64::from(delta.used);
            let answer = answers::answer_of(0, d, i, f, used);
            told_of(answer, u64::from(delta.padded))
        }
        Err(why) => refused(why),
    }
}

// The first list that the body gives otherwise, in the words of a difference; a refusal has no keys.
fn other(
    lists: Lists<'_>,
    r: Result<Delta, Refusal>,
    deleted: &[i32],
    items: &[u32],
    records: &[u32],
) -> Option<&'static str> {
    let same_keys = match r {
        Ok(delta) => patterns::holds(&[delta.key, delta.base], lists.keys),
        _ => true,
    };
    if !same_keys {
        Some(", and other keys")
    } else if !patterns::holds(deleted, lists.deleted) {
        Some(", and other deleted ids")
    } else if !patterns::holds(items, lists.items) {
        Some(", and other items")
    } else if !patterns::holds(records, lists.fields) {
        Some(", and other fields")
    } else {
        None
    }
}

impl fmt::Display for Told {
    fn fmt<W: fmt::Write>(&self, f: &mut fmt::Formatter<W>) -> fmt::Result {
        let Told { answer, padded } = *self;
        let Answer {
            number,
            first,
            second,
            third,
            cursor,
        } = answer;
        write!(
            f,
            "number {number}, {first} deletes, {second} items, {third} fields, "
        )?;
        write!(f, "{cursor} bits used, {padded} padded numbers")
    }
}

// Whether the call that is lent these buffers says and leaves what is recorded or, where a buffer is short, the refusal for its
// needs and nothing; the line that says otherwise is printed.
fn gives(
    out: &impl Print,
    id: &[u8],
    call: Call<'_>,
    want: Recorded<'_>,
    short: bool,
    deleted: &mut [i32],
    items: &mut [u32],
    records: &mut [u32],
) -> io::Result<bool> {
    patterns::fill(deleted);
    patterns::fill(items);
    patterns::fill(records);
    let Call { bits, mode, bytes } = call;
    let r = fastarray::decode_fast_array_delta(bytes, bits, mode, deleted, items, records);
    let want = if short { want.refused() } else { want };
    let other = other(want.lists, r, deleted, items, records);
    let (ids, pairs, numbers) = (deleted.len(), items.len(), records.len());
    let lent = format_args!("{ids} ids, {pairs} and {numbers} numbers");
    rooms::judge(out, id, &want.told, &told_by(r), other, lent)
}

// The mode that a flag says.
fn mode_of(flag: bool) -> ChecksumMode {
    if flag {
        ChecksumMode::Present
    } else {
        ChecksumMode::Absent
    }
}

// The case, with the front of `records` for the fields.
pub fn replay(out: &impl Print, case: Case<'_>, records: &mut [u32]) -> Result<Outcome, Stop> {
    let mut parts = case.parts;
    let flag = parts.number()?;
    let bits = parts.short_number()?;
    let bytes = parts.run()?;
    let want = Recorded::of(&mut parts)?;
    let mode = mode_of(fields::flag(flag)?);
    let call = Call { bits, mode, bytes };
    let mut deleted = [0i32; ID_ROOM];
    let mut items = [0u32; ITEM_ROOM];
    let held = Room {
        first: deleted.len(),
        second: items.len(),
        third: records.len(),
    };
    let same = rooms::pass(Some(want.lists.room()), held, |room, short| {
        let deleted = rooms::front(&mut deleted, room.first);
        let items = rooms::front(&mut items, room.second);
        let records = rooms::front(records, room.third);
        gives(out, case.id, call, want, short, deleted, items, records)
    })?;
    Ok(outcome_of(same))
}
