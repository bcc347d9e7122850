// The verdict on a window that was walked: the verdict on its counters, but where there are no bits.
ghost use Rattle.array.specs.Refusals.{counters_of_lem};
ghost use Rattle.array.specs.Calls.{JudgesWindow};

use crate::passes::is_silent;
use crate::stats::verdict;
use crate::{ArrayDecodeStats, Verdict};
use framing::Walk;

// Of a window of so many bits whose walk, of this kind, counted this.
#[tactic(auto, unfolding(framing::specs::Verdicts::counters_verdict, framing::specs::Verdicts::verdict_of))]
pub fn window_verdict(walk: Walk, bits: u64, stats: ArrayDecodeStats) -> Verdict
    ensures { JudgesWindow walk bits (counters_of_lem stats) result }
{
    if is_silent(walk, bits) {
        return Verdict::Empty;
    }
    // An object walk: it counted an error.
    if bits == 0 {
        return Verdict::Partial;
    }
    verdict(stats)
}
