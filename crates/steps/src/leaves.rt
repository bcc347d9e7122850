// One leaf: its record, its path and its payload.
ghost use Rattle.std.specs.Prelude.{◌≡◌, ◌+◌, ◌-◌, ◌≤◌, length, take};
ghost use Rattle.bits.specs.Sizes.{longest_path};
ghost use Rattle.bits.specs.Bits.{num, field};
ghost use Rattle.bits.specs.Runs.{bytes_of, bytes_for, store};
ghost use Rattle.schema.specs.Labels.{dot};
ghost use Rattle.framing.specs.Events.{raw_handle};
ghost use Rattle.framing.specs.Records.{leaf_words, leaf_numbers};
ghost use Rattle.steps.specs.Lent.{pools_of, no_pools};
ghost use Rattle.steps.specs.Paths.{tag_bytes, tag_length_lem, TagLies, LabelFits};
ghost use Rattle.steps.specs.Tally.{reserved};
ghost use Rattle.steps.specs.Steps.{Plays};
ghost use Rattle.steps.specs.Views.{inner_of};
ghost use Rattle.steps.specs.Gives.{tagged_leaf};

use crate::Tag;
use crate::paths::{WorkingPath, path_room, tag_length, write_tag};
use crate::pieces::Piece;
use crate::runs::{copy_run, store_payload};
use crate::tables::Pools;
use crate::tally::{Tally, reserve};
use crate::writes::Outputs;
use outputs::LeafRecord;
use outputs::records::{LEAF_WORDS, fits, store_leaf};

// The handle of a kept tail.
const RAW_HANDLE: u32 = 4294967295;

// The bytes of `._raw`.
const RAW_BYTES: usize = 5;

// The path of a leaf, n bytes long: the working path and the tag behind it.
fn store_path(
    paths: &mut [u8],
    at: u32,
    path: &mut WorkingPath,
    plen: usize,
    n: usize,
    tag: Tag,
    handle: u32,
    pools: &Pools,
)
    requires { (n ≡ plen + 1 + tag_length_lem handle tag) × (n ≤ longest_path)
        × TagLies (pools_of pools.now) tag }
    ensures out { paths.new ≡ store paths.old at
        (dot (take plen path.old) (tag_bytes (pools_of pools.now) handle tag)) }
    ensures kept { take plen path.new ≡ take plen path.old }
    ensures sized { length path.old ≡ longest_path }
{
    // It tells how long the array is, which the path's length rests on.
    path_room(path);
    if !fits(paths.len(), at, n) {
        return;
    }
    write_tag(&mut *path, plen, tag, handle, pools);
    let whole: &[u8] = path;
    copy_run(paths, at as usize, &whole[0..n]);
}

// All of a leaf but its path, which has n bytes: its record and its payload, and it is counted.
fn put_rest(
    tally: &mut Tally,
    piece: &Piece,
    from: u64,
    handle: u32,
    n: usize,
    records: &mut [u32],
    payloads: &mut [u8],
)
    requires { («from» ≤ piece.now.end) × (n ≤ longest_path) }
    ensures counts { tally.new ≡ reserved tally.old leaf_words n (bytes_for (piece.now.end - «from»)) }
    ensures recorded { records.new ≡ store records.old tally.old.records
        (leaf_numbers tally.old.paths n handle (piece.now.end - «from») tally.old.payloads (piece.now.base + «from»)) }
    ensures loaded { payloads.new ≡ store payloads.old tally.old.payloads
        (bytes_of (bytes_for (piece.now.end - «from»)) (field (num piece.now.bytes.now) «from» (piece.now.end - «from»))) }
{
    let width = piece.end - from;
    let size = (width + 7) / 8;
    let at = tally.records;
    let payload_start = tally.payloads;
    let window_start = piece.base + from;
    let leaf = LeafRecord {
        path_start: tally.paths,
        path_length: n as u32,
        handle,
        payload_bits: width as u32,
        payload_start,
        window_start: window_start as u32,
    };
    store_leaf(records, at, leaf);
    store_payload(payloads, payload_start, piece.bytes, from, piece.end);
    reserve(tally, LEAF_WORDS as u32, n as u32, size as u32);
}

// A leaf of the bits from..end of bytes, its tag behind the working path; the first bit of bytes is bit `base` of the root window.
pub fn put_leaf(
    out: &mut Outputs,
    piece: &Piece,
    from: u64,
    handle: u32,
    tag: Tag,
    plen: usize,
    pools: &Pools,
)
    requires { («from» ≤ piece.now.end) × LabelFits plen × TagLies (pools_of pools.now) tag }
    ensures { Plays
        (tagged_leaf (pools_of pools.now) (take plen out.old.path.now) handle tag
        (inner_of piece.now «from»))
        plen out.old out.new }
{
    let n = plen + 1 + tag_length(tag, handle);
    let path_start = out.tally.paths;
    store_path(out.paths, path_start, out.path, plen, n, tag, handle, pools);
    put_rest(
        &mut out.tally,
        piece,
        from,
        handle,
        n,
        out.records,
        out.payloads,
    );
}

// A tail kept as a leaf `_raw` (01, Walking an array, rule 7). A function of its own: put_leaf then has one caller and is compiled into it.
pub fn put_tail(out: &mut Outputs, piece: &Piece, from: u64, plen: usize)
    requires { («from» ≤ piece.now.end) × LabelFits plen }
    ensures { Plays
        (tagged_leaf no_pools (take plen out.old.path.now) raw_handle Tag.Raw (inner_of piece.now «from»))
        plen out.old out.new }
{
    let n = plen + RAW_BYTES;
    let path_start = out.tally.paths;
    let none = [0u8; 0];
    let pools = Pools {
        names: &none,
        declared_names: &none,
    };
    store_path(
        out.paths,
        path_start,
        out.path,
        plen,
        n,
        Tag::Raw,
        RAW_HANDLE,
        &pools,
    );
    put_rest(
        &mut out.tally,
        piece,
        from,
        RAW_HANDLE,
        n,
        out.records,
        out.payloads,
    );
}
