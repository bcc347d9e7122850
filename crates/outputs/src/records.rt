// The records of leaves and of pairs: how many numbers each has, and where they stand (01, Tables and outputs). No other
// code knows; for definitions it is specs/Records of the crate framing.
ghost use Rattle.std.specs.Prelude.{◌≡◌, ◌+◌, ◌/◌, ◌<◌, length, leb};
ghost use Rattle.bits.specs.Runs.{store};
ghost use Rattle.framing.specs.Records.{leaf_words, pair_words, leaf_numbers, pair_numbers};
ghost use Rattle.outputs.specs.Records.{leaf_at_lem, pair_at};

use crate::{LeafRecord, PairRecord};

// The numbers of a leaf, and of a pair.
pub const LEAF_WORDS: usize = 6;

pub const PAIR_WORDS: usize = 2;

// Where a leaf's numbers stand.
const PATH_START: usize = 0;

const PATH_LENGTH: usize = 1;

const HANDLE: usize = 2;

const PAYLOAD_BITS: usize = 3;

const PAYLOAD_START: usize = 4;

const WINDOW_START: usize = 5;

// Where a pair's numbers stand.
const INDEX: usize = 0;

const GUID: usize = 1;

// Whether n more fit behind the first `used` of `room`.
pub fn fits(room: usize, used: u32, n: usize) -> bool
    requires { n < 4294967296 }
    ensures { result ≡ leb (used + n) room }
{
    let end = (used as usize) + n;
    end <= room
}

// A leaf's record, written whole where it fits, else not at all.
pub fn store_leaf(leaves: &mut [u32], at: u32, leaf: LeafRecord)
    ensures { leaves.new
        ≡ store leaves.old at
        (leaf_numbers leaf.path_start leaf.path_length leaf.handle leaf.payload_bits leaf.payload_start leaf.window_start) }
{
    if !fits(leaves.len(), at, LEAF_WORDS) {
        return;
    }
    let i = at as usize;
    leaves[i + PATH_START] = leaf.path_start;
    leaves[i + PATH_LENGTH] = leaf.path_length;
    leaves[i + HANDLE] = leaf.handle;
    leaves[i + PAYLOAD_BITS] = leaf.payload_bits;
    leaves[i + PAYLOAD_START] = leaf.payload_start;
    leaves[i + WINDOW_START] = leaf.window_start;
}

// A pair's record, likewise.
pub fn store_pair(pairs: &mut [u32], at: u32, pair: PairRecord)
    ensures { pairs.new ≡ store pairs.old at (pair_numbers pair.index pair.guid) }
{
    if !fits(pairs.len(), at, PAIR_WORDS) {
        return;
    }
    let i = at as usize;
    pairs[i + INDEX] = pair.index;
    pairs[i + GUID] = pair.guid;
}

// Leaf i of those that stand in `leaves`.
pub fn leaf_at(leaves: &[u32], i: usize) -> LeafRecord
    requires { i < length leaves.now / leaf_words }
    ensures { result ≡ leaf_at_lem leaves.now i }
{
    let at = LEAF_WORDS * i;
    LeafRecord {
        path_start: leaves[at + PATH_START],
        path_length: leaves[at + PATH_LENGTH],
        handle: leaves[at + HANDLE],
        payload_bits: leaves[at + PAYLOAD_BITS],
        payload_start: leaves[at + PAYLOAD_START],
        window_start: leaves[at + WINDOW_START],
    }
}

// Pair i of those that stand in `pairs`.
pub fn pair_at(pairs: &[u32], i: usize) -> PairRecord
    requires { i < length pairs.now / pair_words }
    ensures { result ≡ pair_at pairs.now i }
{
    let at = PAIR_WORDS * i;
    PairRecord {
        index: pairs[at + INDEX],
        guid: pairs[at + GUID],
    }
}
