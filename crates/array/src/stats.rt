// Counters: of one walk, and of two.
ghost use Rattle.std.specs.Prelude.{◌≡◌, is_some, IfSome};
ghost use Rattle.framing.specs.Counters.{sums};
ghost use Rattle.array.specs.Refusals.{counters_of_lem};
ghost use Rattle.array.specs.Merges.{bounded};
ghost use Rattle.array.specs.Calls.{stats_clean, Judges, Adds};

use crate::{ArrayDecodeStats, Overflow, Verdict};

// Whether nothing but elements and fields was counted. It is so too for a struct or exact walk of no bits, whose verdict is
// empty.
pub fn is_clean(stats: ArrayDecodeStats) -> bool
    ensures { result ≡ stats_clean stats }
{
    stats.truncations == 0
        && stats.errors == 0
        && stats.unconsumed_nested_bits == 0
        && stats.unconsumed_root_bits == 0
        && stats.implicit_terminations == 0
}

// The verdict on a set of counters, of one walk or of several added up: clean or partial. The rule on no bits is a window's: a set
// doesn't tell how many bits were walked, and is never empty. The verdict on a window stands in its walk's answer.
#[tactic(auto, unfolding(framing::specs::Verdicts::counters_verdict))]
pub fn verdict(stats: ArrayDecodeStats) -> Verdict
    ensures { Judges stats result }
{
    if is_clean(stats) {
        Verdict::Clean
    } else {
        Verdict::Partial
    }
}

// The sums, counter by counter; none if one of them passes 2^64 - 1.
#[tactic(auto, unfolding(crate::specs::Merges::bounded))]
fn sum_of(left: ArrayDecodeStats, right: ArrayDecodeStats) -> Option<ArrayDecodeStats>
    ensures fits { is_some result ≡ bounded (sums (counters_of_lem left) (counters_of_lem right)) }
    ensures adds { IfSome result
        (λ s. counters_of_lem s ≡ sums (counters_of_lem left) (counters_of_lem right)) }
{
    Some(ArrayDecodeStats {
        elements_decoded: left.elements_decoded.checked_add(right.elements_decoded)?,
        fields_emitted: left.fields_emitted.checked_add(right.fields_emitted)?,
        truncations: left.truncations.checked_add(right.truncations)?,
        errors: left.errors.checked_add(right.errors)?,
        unconsumed_nested_bits: left
            .unconsumed_nested_bits
            .checked_add(right.unconsumed_nested_bits)?,
        unconsumed_root_bits: left
            .unconsumed_root_bits
            .checked_add(right.unconsumed_root_bits)?,
        implicit_terminations: left
            .implicit_terminations
            .checked_add(right.implicit_terminations)?,
    })
}

// The counters of two walks, counter by counter.
#[tactic(auto, unfolding(crate::specs::Merges::merge))]
pub fn merge_from(
    left: ArrayDecodeStats,
    right: ArrayDecodeStats,
) -> Result<ArrayDecodeStats, Overflow>
    ensures { Adds left right result }
{
    sum_of(left, right).ok_or(Overflow { left })
}
