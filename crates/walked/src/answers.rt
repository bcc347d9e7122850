// Answers of a walk, ours and the recorded one.
use array::said::{pairs_said, said};
use array::{ArrayDecodeStats, Extent, PairRefusal, Refusal, Verdict, Walked};
use framing::Walk;
use recorded::answers::{Fault, SHORT};
use recorded::fields;
use recorded::fields::Parts;
use recorded::rooms::Room;
use std::fmt;

#[derive(Clone, Copy, PartialEq, Eq)]
pub struct Answer {
    // 0 for a walk, or the refusal's number by document 01.
    pub number: u64,
    // The seven counters, the verdict (0 clean, 1 partial, 2 empty) and the padded numbers, as a case has them, which may be any
    // numbers. Of a refusal all are 0.
    pub counts: [u64; 9],
    // What the outputs need: records, path bytes, payload bytes.
    pub records: u64,
    pub path_bytes: u64,
    pub payload_bytes: u64,
}

// What a walk leaves in its outputs, as the case has it.
#[derive(Clone, Copy)]
pub struct Lists<'a> {
    pub records: &'a [u8],
    pub paths: &'a [u8],
    pub payloads: &'a [u8],
}

// What is recorded of a walk; of one whose outputs don't stand in the case, not these.
#[derive(Clone, Copy)]
pub struct Recorded<'a> {
    pub answer: Answer,
    pub lists: Option<Lists<'a>>,
}

fn verdict_number(v: Verdict) -> u64 {
    match v {
        Verdict::Clean => 0,
        Verdict::Partial => 1,
        Verdict::Empty => 2,
    }
}

fn counts_of(stats: ArrayDecodeStats, v: Verdict, padded: u32) -> [u64; 9] {
    [
        stats.elements_decoded,
        stats.fields_emitted,
        stats.truncations,
        stats.errors,
        stats.unconsumed_nested_bits,
        stats.unconsumed_root_bits,
        stats.implicit_terminations,
        verdict_number(v),
        u64::from(padded),
    ]
}

pub fn answer_of(
    number: u64,
    counts: [u64; 9],
    records: u64,
    path_bytes: u64,
    payload_bytes: u64,
) -> Answer {
    Answer {
        number,
        counts,
        records,
        path_bytes,
        payload_bytes,
    }
}

fn walked(counts: [u64; 9], e: Extent) -> Answer {
    answer_of(
        0,
        counts,
        u64::from(e.leaves),
        u64::from(e.path_bytes),
        u64::from(e.payload_bytes),
    )
}

fn refused(why: Refusal) -> Answer {
    let told = said(Err(why));
    answer_of(
        u64::from(told.number),
        [0; 9],
        u64::from(told.need.leaves),
        u64::from(told.need.path_bytes),
        u64::from(told.need.payload_bytes),
    )
}

fn refused_pairs(why: PairRefusal) -> Answer {
    let told = pairs_said(Err(why));
    answer_of(u64::from(told.number), [0; 9], u64::from(told.need), 0, 0)
}

pub fn of_structs(r: Result<Walked<Extent>, Refusal>) -> Answer {
    match r {
        Ok(w) => walked(counts_of(w.stats, w.verdict, w.padded), w.filled),
        Err(why) => refused(why),
    }
}

pub fn of_objects(r: Result<Walked<u32>, PairRefusal>) -> Answer {
    match r {
        Ok(w) => {
            let counts = counts_of(w.stats, w.verdict, w.padded);
            answer_of(0, counts, u64::from(w.filled), 0, 0)
        }
        Err(why) => refused_pairs(why),
    }
}

impl<'a> Lists<'a> {
    pub const NONE: Lists<'static> = Lists {
        records: &[],
        paths: &[],
        payloads: &[],
    };

    // How many numbers and bytes they are.
    fn room(self) -> Room {
        Room {
            first: self.records.len() / 4,
            second: self.paths.len(),
            third: self.payloads.len(),
        }
    }
}

impl<'a> Recorded<'a> {
    // What the walk needs of its outputs.
    pub fn needs(self) -> Option<Room> {
        self.lists.map(|lists| lists.room())
    }

    // What the walk has to give where an output is short: the refusal for its needs, and nothing in the outputs.
    pub fn refused(self) -> Recorded<'a> {
        let a = self.answer;
        Recorded {
            answer: answer_of(SHORT, [0; 9], a.records, a.path_bytes, a.payload_bytes),
            lists: None,
        }
    }

    // Of a struct or exact walk. Behind its needs stands whether its outputs stand there.
    fn of_leaves(parts: &mut Parts<'a>) -> Result<Recorded<'a>, Fault> {
        let number = parts.number()?;
        let counts = parts.numbers()?;
        let [records, path_bytes, payload_bytes] = parts.numbers::<3>()?;
        let lists = if fields::flag(parts.number()?)? {
            Some(Lists {
                records: parts.run()?,
                paths: parts.run()?,
                payloads: parts.run()?,
            })
        } else {
            None
        };
        let answer = answer_of(number, counts, records, path_bytes, payload_bytes);
        Ok(Recorded { answer, lists })
    }

    // Of an object walk. Its only output is the pairs.
    fn of_pairs(parts: &mut Parts<'a>) -> Result<Recorded<'a>, Fault> {
        let number = parts.number()?;
        let counts = parts.numbers()?;
        let pairs = parts.number()?;
        let lists = Some(Lists {
            records: parts.run()?,
            ..Lists::NONE
        });
        let answer = answer_of(number, counts, pairs, 0, 0);
        Ok(Recorded { answer, lists })
    }

    // What is recorded of such a walk, the last parts of its case.
    pub fn of(walk: Walk, parts: &mut Parts<'a>) -> Result<Recorded<'a>, Fault> {
        let recorded = match walk {
            Walk::Struct | Walk::Exact => Recorded::of_leaves(parts)?,
            Walk::Object => Recorded::of_pairs(parts)?,
        };
        if recorded
            .lists
            .is_some_and(|lists| lists.records.len() % 4 != 0)
        {
            return Err(Fault::Layout);
        }
        parts.end()?;
        Ok(recorded)
    }
}

impl fmt::Display for Answer {
    fn fmt<W: fmt::Write>(&self, f: &mut fmt::Formatter<W>) -> fmt::Result {
        let Answer {
            number,
            counts,
            records,
            path_bytes,
            payload_bytes,
        } = *self;
        write!(f, "number {number}, counters, verdict and padded")?;
        for count in counts {
            write!(f, " {count}")?;
        }
        write!(
            f,
            ", needs {records} records, {path_bytes} path bytes, {payload_bytes} payload bytes"
        )
    }
}
