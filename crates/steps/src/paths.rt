// The working path: its first plen bytes are the path of where the walk stands.
ghost use Rattle.std.specs.Prelude.{◌≡◌, ◌+◌, ◌<◌, ◌≤◌, [], ◌∷◌, ◌++◌, length, take};
ghost use Rattle.bits.specs.Sizes.{max_elements, longest_label, longest_path};
ghost use Rattle.bits.specs.Runs.{put};
ghost use Rattle.bits.specs.Decimals.{decimal};
ghost use Rattle.schema.specs.Labels.{dot, label_bytes, label_length_lem, LabelLies};
ghost use Rattle.steps.specs.Lent.{pools_of};
ghost use Rattle.steps.specs.Paths.{tag_bytes, tag_length_lem, TagLies, IndexFits, LabelFits, Entered, Grew};

use crate::Tag;
use crate::runs::copy_run;
use crate::tables::Pools;
use crate::tally::{Tally, count};
use crate::walks::gives_leaves;
use bits::decimal::write_decimal;
use bits::digits::decimal_length;
use bits::sizes::LONGEST_PATH;
use framing::Walk;
use schema::Label;
use schema::labels::{label_length, label_part};

pub type WorkingPath = [u8; LONGEST_PATH];

// How many bytes the working path's array has: lent as a slice, it tells.
pub fn path_room(path: &WorkingPath) -> usize
    ensures { (result ≡ longest_path) × (length path.now ≡ longest_path) }
{
    let whole: &[u8] = path;
    whole.len()
}

// How many bytes a tag has.
pub fn tag_length(tag: Tag, handle: u32) -> usize
    ensures { result ≡ tag_length_lem handle tag }
{
    match tag {
        Tag::Label(label) => label_length(label, handle),
        Tag::Raw => 4,
    }
}

// `_raw` from byte at of the working path.
fn write_raw(path: &mut WorkingPath, at: usize)
    requires { at + 4 ≤ longest_path }
    ensures out { path.new ≡ put path.old at (95 ∷ 114 ∷ 97 ∷ 119 ∷ []) }
    ensures sized { length path.old ≡ longest_path }
{
    let whole: &mut [u8] = path;
    whole[at] = 95;
    whole[at + 1] = 114;
    whole[at + 2] = 97;
    whole[at + 3] = 119;
}

// The label from byte at of the working path, which has room for it.
fn write_label(path: &mut WorkingPath, at: usize, label: Label, handle: u32, pools: &Pools)
    requires { (LabelLies (pools_of pools.now) label) × (at + label_length_lem handle label ≤ longest_path) }
    ensures out { path.new
        ≡ put path.old at (label_bytes (pools_of pools.now) handle label) }
    ensures sized { length path.old ≡ longest_path }
{
    match label {
        Label::Plain => {
            path[at] = 95;
            path[at + 1] = 104;
            write_decimal(path, at + 2, handle);
        }
        Label::Declared(_, _) => {
            let name = label_part(pools.declared_names, pools.names, label);
            copy_run(path, at, name);
        }
        Label::Named(_, _) => {
            let name = label_part(pools.declared_names, pools.names, label);
            copy_run(path, at, name);
        }
    }
}

// A dot and the tag behind the working path, which has room for them.
pub fn write_tag(path: &mut WorkingPath, plen: usize, tag: Tag, handle: u32, pools: &Pools)
    requires { (TagLies (pools_of pools.now) tag) × (plen + 1 + tag_length_lem handle tag ≤ longest_path) }
    ensures out { path.new
        ≡ put path.old plen (46 ∷ tag_bytes (pools_of pools.now) handle tag) }
    ensures sized { length path.old ≡ longest_path }
{
    path[plen] = 46;
    match tag {
        Tag::Label(label) => write_label(path, plen + 1, label, handle, pools),
        Tag::Raw => write_raw(path, plen + 1),
    }
}

// The working path with `.label` behind it: its length.
pub fn grow_label(
    path: &mut WorkingPath,
    plen: usize,
    label: Label,
    handle: u32,
    pools: &Pools,
) -> usize
    requires { LabelFits plen × LabelLies (pools_of pools.now) label }
    ensures { Grew (dot (take plen path.old) (label_bytes (pools_of pools.now) handle label))
        longest_label plen result path.old path.new }
{
    let n = plen + 1 + label_length(label, handle);
    write_tag(path, plen, Tag::Label(label), handle, pools);
    n
}

// `[index]` behind the working path, which has room for it; k is how many digits the index has.
fn write_index(path: &mut WorkingPath, plen: usize, k: usize, index: u32)
    requires { (k ≡ length (decimal index)) × (plen + k + 2 ≤ longest_path) }
    ensures out { path.new ≡ put path.old plen (91 ∷ decimal index ++ (93 ∷ [])) }
    ensures sized { length path.old ≡ longest_path }
{
    path[plen] = 91;
    write_decimal(path, plen + 1, index);
    path[plen + 1 + k] = 93;
}

// Counts an element (01, Walking an array, rule 4), and puts `[index]` behind the working path: its length. The object walk has no paths.
pub fn enter(
    tally: &mut Tally,
    path: &mut WorkingPath,
    walk: Walk,
    plen: usize,
    index: u32,
) -> usize
    requires { (index < max_elements) × IndexFits plen }
    ensures { Entered walk index tally.old tally.new plen result path.old path.new }
{
    count(&mut tally.elements, 1);
    if !gives_leaves(walk) {
        return plen;
    }
    let k = decimal_length(index);
    write_index(path, plen, k, index);
    plen + k + 2
}
