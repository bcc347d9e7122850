// The walks of a case: with outputs that are exactly full, longer, and too short. The three outputs stay apart, as array's calls take
// them.
use crate::answers::{Lists, Recorded};
use crate::calls::Call;
use crate::walks;
use framing::Walk;
use recorded::answers::{Outcome, Stop, outcome_of};
use recorded::fields::Case;
use recorded::rooms::Room;
use recorded::{patterns, rooms};
use std::io;

// The first output that holds something else, in the words of a difference.
fn other(lists: Lists<'_>, leaves: &[u32], paths: &[u8], payloads: &[u8]) -> Option<&'static str> {
    if !patterns::holds(leaves, lists.records) {
        Some(", and other records")
    } else if !patterns::holds(paths, lists.paths) {
        Some(", and other path bytes")
    } else if !patterns::holds(payloads, lists.payloads) {
        Some(", and other payload bytes")
    } else {
        None
    }
}

// Whether the walk that is lent these outputs answers and leaves what is recorded or, where an output is short, the refusal for its
// needs and nothing; the line that says otherwise is printed.
fn gives(
    out: &impl Print,
    id: &[u8],
    call: Call<'_>,
    want: Recorded<'_>,
    short: bool,
    leaves: &mut [u32],
    paths: &mut [u8],
    payloads: &mut [u8],
) -> io::Result<bool> {
    patterns::fill(leaves);
    patterns::fill(paths);
    patterns::fill(payloads);
    let got = walks::answer(call, leaves, paths, payloads);
    let want = if short { want.refused() } else { want };
    let lists = want.lists.unwrap_or(Lists::NONE);
    let other = other(lists, leaves, paths, payloads);
    let (numbers, names, values) = (leaves.len(), paths.len(), payloads.len());
    let lent = format_args!("{numbers} numbers, {names} and {values} bytes");
    rooms::judge(out, id, &want.answer, &got, other, lent)
}

// The case of such a walk, with the fronts of these as outputs. What is wrong with its recorded answer is told before what is wrong
// with its call.
pub fn replay(
    out: &impl Print,
    walk: Walk,
    case: Case<'_>,
    leaves: &mut [u32],
    paths: &mut [u8],
    payloads: &mut [u8],
) -> Result<Outcome, Stop> {
    let mut parts = case.parts;
    let call = Call::of(walk, &mut parts);
    let want = Recorded::of(walk, &mut parts)?;
    let call = call?;
    let held = Room {
        first: leaves.len(),
        second: paths.len(),
        third: payloads.len(),
    };
    let same = rooms::pass(want.needs(), held, |room, short| {
        let leaves = rooms::front(leaves, room.first);
        let paths = rooms::front(paths, room.second);
        let payloads = rooms::front(payloads, room.third);
        gives(out, case.id, call, want, short, leaves, paths, payloads)
    })?;
    Ok(outcome_of(same))
}
