// One pass over a window, and what is read off its tally. `pass` is the one seam between the public walks and what walks.
ghost use Rattle.std.specs.Prelude.{◌≡◌, ◌&&◌, [], ◌/◌, eqb};
ghost use Rattle.framing.specs.Sinks as F;
ghost use Rattle.framing.specs.Sinks.{walker, gives_leaves_lem};
ghost use Rattle.framing.specs.Refusing.{within};
ghost use Rattle.outputs.specs.World.{fresh};
ghost use Rattle.steps.specs.Tally.{world_of, played};
ghost use Rattle.steps.specs.Lent.{tables_of};
ghost use Rattle.steps.specs.Steps.{world_in, SameLent};
ghost use Rattle.outputs.specs.Answers.{measured_with, room_with};
ghost use Rattle.array.specs.Passing.{Passable, record_words};
ghost use Rattle.array.specs.Refusals.{counters_of_lem, room_in};

use crate::{ArrayDecodeStats, Extent};
use bits::sizes::LEVELS_BELOW;
use cycle::walk_level;
use framing::Walk;
use outputs::records::{LEAF_WORDS, PAIR_WORDS};
use steps::paths::WorkingPath;
use steps::pieces::Piece;
use steps::tables::{LentTables, Spot};
use steps::tally::{Tally, count};
use steps::walks::gives_leaves;
use steps::writes::Outputs;

// 01, Walking an array, rule 9: a struct or exact walk of no bits counts nothing.
pub fn is_silent(walk: Walk, bits: u64) -> bool
    ensures { result ≡ (gives_leaves_lem walk && eqb bits 0) }
{
    gives_leaves(walk) && bits == 0
}

// One pass of any walk over the first `bits` bits. Where the bytes hold fewer, that is one error (01, Refusal numbers: no walk
// gives 14).
pub fn pass(out: &mut Outputs, bytes: &[u8], bits: u64, walk: Walk, root: u32, tables: &LentTables)
    requires { Passable bits (tables_of tables.now) }
    ensures played { world_in out.new
        ≡ played
        (F.walk (walker walk (tables_of tables.now) root) bytes.now bits)
        (world_in out.old) }
    ensures lent { SameLent out.old out.new }
{
    if is_silent(walk, bits) {
        return;
    }
    let size = ((bits + 7) / 8) as usize;
    if bytes.len() < size {
        count(&mut out.tally.errors, 1);
        return;
    }
    let spot = Spot {
        walk,
        tables,
        below: LEVELS_BELOW,
        level: root,
    };
    let piece = Piece {
        bytes,
        base: 0,
        end: bits,
    };
    walk_level(out, &spot, &piece, 0, false, 0);
}

// The pass that measures: lent no output, it counts what all of them need.
pub fn measure(
    bytes: &[u8],
    bits: u64,
    walk: Walk,
    root: u32,
    tables: &LentTables,
    path: &mut WorkingPath,
) -> Tally
    requires { Passable bits (tables_of tables.now) }
    ensures { world_of result [] [] []
        ≡ played
        (F.walk (walker walk (tables_of tables.now) root) bytes.now bits)
        (fresh [] [] []) }
{
    let mut records = [0u32; 0];
    let mut paths = [0u8; 0];
    let mut payloads = [0u8; 0];
    let mut out = Outputs {
        tally: Tally::default(),
        path,
        records: &mut records,
        paths: &mut paths,
        payloads: &mut payloads,
    };
    pass(&mut out, bytes, bits, walk, root, tables);
    out.tally
}

// The counters among a pass's numbers.
#[tactic(auto, unfolding(steps::specs::Tally::world_of))]
pub fn stats_of(tally: &Tally) -> ArrayDecodeStats
    ensures { counters_of_lem result ≡ (world_of tally.now [] [] []).counters }
{
    ArrayDecodeStats {
        elements_decoded: u64::from(tally.elements),
        fields_emitted: u64::from(tally.fields),
        truncations: u64::from(tally.truncations),
        errors: u64::from(tally.errors),
        unconsumed_nested_bits: u64::from(tally.nested),
        unconsumed_root_bits: u64::from(tally.root),
        implicit_terminations: u64::from(tally.implicit),
    }
}

// The padded numbers that a pass took.
#[tactic(auto, unfolding(steps::specs::Tally::world_of))]
pub fn padded_of(tally: &Tally) -> u32
    ensures { result ≡ (world_of tally.now [] [] []).padded }
{
    tally.padded
}

// The numbers of a record, of a leaf or of a pair.
fn words_of(walk: Walk) -> usize
    ensures { result ≡ record_words walk }
{
    if gives_leaves(walk) {
        LEAF_WORDS
    } else {
        PAIR_WORDS
    }
}

// The records, path bytes and payload bytes that a pass came to.
#[tactic(auto, unfolding(steps::specs::Tally::world_of))]
pub fn extent_of(walk: Walk, tally: &Tally) -> Extent
    ensures { room_in result ≡ measured_with (record_words walk) (world_of tally.now [] [] []) }
{
    Extent {
        leaves: tally.records / words_of(walk) as u32,
        path_bytes: tally.paths,
        payload_bytes: tally.payloads,
    }
}

// Whether outputs of these lengths hold so much: only whole records count.
pub fn has_room(walk: Walk, need: Extent, records: usize, paths: usize, payloads: usize) -> bool
    ensures { result ≡ within (room_in need) (room_with (record_words walk) records paths payloads) }
{
    need.leaves as usize <= records / words_of(walk)
        && need.path_bytes as usize <= paths
        && need.payload_bytes as usize <= payloads
}
