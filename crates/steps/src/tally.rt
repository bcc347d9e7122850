// The tally of a walk: the seven counters, the places of the next writes, and the padded numbers.
ghost use Rattle.std.specs.Prelude.{◌≡◌};
ghost use Rattle.steps.specs.Tally.{added, reserved};

#[derive(Clone, Copy, Default, PartialEq, Eq, PartialOrd, Ord, Hash, Debug)]
pub struct Tally {
    pub elements: u32,
    pub fields: u32,
    pub truncations: u32,
    pub errors: u32,
    pub nested: u32,
    pub root: u32,
    pub implicit: u32,
    pub records: u32,
    pub paths: u32,
    pub payloads: u32,
    pub padded: u32,
}

// Adds n to a number.
pub fn count(number: &mut u32, n: u32)
    ensures { number.new ≡ added number.old n }
{
    *number = std::num::wrapping_add_u32(*number, n);
}

// Counts a leaf of so many numbers, path bytes and payload bytes.
#[tactic(auto, unfolding(crate::specs::Tally::reserved))]
pub fn reserve(tally: &mut Tally, records: u32, paths: u32, payloads: u32)
    ensures { tally.new ≡ reserved tally.old records paths payloads }
{
    count(&mut tally.fields, 1);
    count(&mut tally.records, records);
    count(&mut tally.paths, paths);
    count(&mut tally.payloads, payloads);
}
