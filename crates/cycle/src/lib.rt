// The walkers' cycle (array.rs): a level, the fields of an element, and a field call one another. They only match, lend and
// call; every test on bits and every write is a step of the crate `steps`.
#![tactic(auto)]

ghost use Rattle.std.specs.Prelude.{◌≡◌, ◌&&◌, ◌-◌, ◌≤◌, eqb, take};
ghost use Rattle.framing.specs.Paths.{level_adds, element_adds};
ghost use Rattle.steps.specs.Steps.{world_in, SameLent};
ghost use Rattle.cycle.specs.Cycle.{place_of, Ready, LevelWalked, FieldsWalked, FieldWalked};

use bits::sizes::{MAX_ELEMENTS, MAX_FIELDS};
use steps::exits::{stop_fields, stop_level};
use steps::heads::{element_head, field_head, level_head};
use steps::kinds::{kind_of, put_field};
use steps::parts::touched;
use steps::paths::{enter, grow_label};
use steps::pieces::Piece;
use steps::tables::Spot;
use steps::writes::Outputs;
use steps::{Head, Kind};

// Whether the next field is still the first with a payload.
fn still_first(first: bool, body: u64, next: u64) -> bool
    requires { body ≤ next }
    ensures { result ≡ (first && eqb (next - body) 0) }
{
    if !first {
        return false;
    }
    body == next
}

// One array level: the piece's bits from bit `from` on, at the spot (01, Walking an array, rules 1 to 4).
#[cycle(walk_field_walk_fields_walk_level)]
pub fn walk_level(
    out: &mut Outputs,
    spot: &Spot,
    piece: &Piece,
    from: u64,
    inside: bool,
    plen: usize,
)
    requires { Ready spot.now piece.now «from» plen (level_adds spot.now.below) }
    ensures walked { LevelWalked
        (place_of spot.now piece.now (take plen out.old.path.now))
        inside «from»
        (world_in out.old)
        (world_in out.new)
        (take plen out.new.path.now) }
    ensures lent { SameLent out.old out.new }
{
    let o = level_head(&mut out.tally, piece, from);
    let Head::Go {
        value: total,
        body: first,
        next: _,
    } = o
    else {
        stop_level(out, o, piece, spot.walk, inside, plen);
        return;
    };
    let mut at = first;
    let mut left = MAX_ELEMENTS;
    // No `for` over what is left, which would be no plainer: with none left a head is still due, and that one ends the level.
    loop {
        let h = element_head(&mut out.tally, piece, total, left, at);
        let Head::Go {
            value: index,
            body: next,
            next: _,
        } = h
        else {
            stop_level(out, h, piece, spot.walk, inside, plen);
            return;
        };
        let longer = enter(&mut out.tally, out.path, spot.walk, plen, index);
        let w = walk_fields(&mut *out, spot, piece, next, longer, index);
        let Some(n) = w else {
            return;
        };
        at = n;
        left = left - 1;
    }
}

// The fields of the element `index`, from bit `from` on (rule 5): the bit behind the zero handle, if they close.
#[cycle(walk_field_walk_fields_walk_level)]
fn walk_fields(
    out: &mut Outputs,
    spot: &Spot,
    piece: &Piece,
    from: u64,
    plen: usize,
    index: u32,
) -> Option<u64>
    requires { Ready spot.now piece.now «from» plen (element_adds spot.now.below) }
    ensures walked { FieldsWalked
        (place_of spot.now piece.now (take plen out.old.path.now))
        index «from»
        (world_in out.old)
        (world_in out.new)
        result (take plen out.new.path.now) }
    ensures lent { SameLent out.old out.new }
{
    // Read once, not for each field: what a field writes might be they, for all that the compiler knows.
    let bytes = piece.bytes;
    let base = piece.base;
    let mut first = true;
    let mut at = from;
    let mut left = MAX_FIELDS;
    // Nor a `for` here, for the same reason.
    loop {
        let h = field_head(&mut out.tally, piece, left, at);
        if let Head::Closed(n) = h {
            return Some(n);
        }
        let Head::Go {
            value: handle,
            body,
            next,
        } = h
        else {
            stop_fields(out, h, piece, spot.walk, plen);
            return None;
        };
        let field = Piece {
            bytes,
            base,
            end: next,
        };
        walk_field(&mut *out, spot, &field, body, plen, index, first, handle);
        first = still_first(first, body, next);
        at = next;
        left = left - 1;
    }
}

// One field, the piece's bits from bit `from` on: the array that the schema says it is, or what a step makes of it (rule 6).
#[cycle(walk_field_walk_fields_walk_level)]
fn walk_field(
    out: &mut Outputs,
    spot: &Spot,
    piece: &Piece,
    from: u64,
    plen: usize,
    index: u32,
    first: bool,
    handle: u32,
)
    requires { Ready spot.now piece.now «from» plen (element_adds spot.now.below) }
    ensures walked { FieldWalked
        (place_of spot.now piece.now (take plen out.old.path.now))
        index first handle «from»
        (world_in out.old)
        (world_in out.new)
        (take plen out.new.path.now) }
    ensures lent { SameLent out.old out.new }
{
    let tables = spot.tables;
    let width = piece.end - from;
    let kind = kind_of(spot, handle, width);
    let Kind::Array(child, label) = kind else {
        put_field(
            out,
            kind,
            piece,
            from,
            index,
            first,
            handle,
            plen,
            &tables.pools,
        );
        return;
    };
    let longer = grow_label(out.path, plen, label, handle, &tables.pools);
    let start = from % 8;
    let skipped = from - start;
    let under = Spot {
        walk: spot.walk,
        tables,
        below: spot.below - 1,
        level: child,
    };
    let part = Piece {
        bytes: touched(piece.bytes, from, piece.end),
        base: piece.base + skipped,
        end: start + width,
    };
    walk_level(out, &under, &part, start, true, longer);
}
