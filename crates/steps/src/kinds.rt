// What a field is, and what one gives that is no array to walk (01, Walking an array, rules 6 and 8).
ghost use Rattle.std.specs.Prelude.{◌≡◌, ◌≤◌, take};
ghost use Rattle.steps.specs.Steps.{Plays};
ghost use Rattle.steps.specs.Views.{inner_of};
ghost use Rattle.steps.specs.Paths.{LabelFits};
ghost use Rattle.steps.specs.Lent.{pools_of, kind_at};
ghost use Rattle.steps.specs.Kinds.{KindLies};
ghost use Rattle.steps.specs.Gives.{flat_field};

use crate::leaves::put_leaf;
use crate::objects::object_field;
use crate::pieces::Piece;
use crate::tables::{Pools, Spot};
use crate::tally::count;
use crate::walks::gives_leaves;
use crate::writes::Outputs;
use crate::{Kind, Tag};
use schema::labels::{container_label_from, leaf_label_from};
use schema::spans::entry_of;

// What a field of `width` bits with this handle is.
pub fn kind_of(spot: &Spot, handle: u32, width: u64) -> Kind
    ensures { result ≡ kind_at spot.now handle width }
{
    if !gives_leaves(spot.walk) {
        return Kind::Object;
    }
    let tables = spot.tables;
    let entry = entry_of(tables.rows, tables.spans, spot.level, handle);
    match entry.elements {
        None => {
            let label = leaf_label_from(entry, tables.declared, handle);
            Kind::Leaf(label)
        }
        Some(lower) => {
            if width == 0 {
                return Kind::Nothing;
            }
            let label = container_label_from(entry);
            if spot.below == 0 {
                return Kind::Deep(label);
            }
            Kind::Array(lower, label)
        }
    }
}

// A field that is no array to walk: a leaf, an array below the last level, nothing, or a field of the object walk.
pub fn put_field(
    out: &mut Outputs,
    kind: Kind,
    piece: &Piece,
    from: u64,
    index: u32,
    first: bool,
    handle: u32,
    plen: usize,
    pools: &Pools,
)
    requires { («from» ≤ piece.now.end) × LabelFits plen × KindLies (pools_of pools.now) kind }
    ensures { Plays
        (flat_field (pools_of pools.now) index (take plen out.old.path.now) first handle
        (inner_of piece.now «from») kind)
        plen out.old out.new }
{
    let label = match kind {
        Kind::Object => {
            return object_field(&mut out.tally, piece, from, index, first, out.records);
        }
        Kind::Nothing => {
            return;
        }
        Kind::Leaf(named) => named,
        Kind::Deep(named) => {
            count(&mut out.tally.truncations, 1);
            named
        }
        Kind::Array(_, _) => {
            return;
        }
    };
    put_leaf(out, piece, from, handle, Tag::Label(label), plen, pools);
}
