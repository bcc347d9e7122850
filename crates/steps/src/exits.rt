// The ways out of a level and of an element's fields (01, Walking an array).
ghost use Rattle.std.specs.Prelude.{◌≡◌, ◌≤◌, ℕ, Bool, List, [], ◌∷◌, take};
ghost use Rattle.framing.specs.Walk.{tail, closing};
ghost use Rattle.steps.specs.Paths.{LabelFits};
ghost use Rattle.steps.specs.Tally.{world_of, played};
ghost use Rattle.steps.specs.Steps.{Plays};
ghost use Rattle.steps.specs.Views.{inner, inner_of, leftover_of, exit_sink, HeadIn};
ghost use Rattle.steps.specs.Gives.{fields_stop, level_stop};

use crate::Head;
use crate::heads::number_at;
use crate::leaves::put_tail;
use crate::pieces::Piece;
use crate::tally::{Tally, count};
use crate::walks::{gives_leaves, takes_trailer};
use crate::writes::Outputs;
use bits::sizes::TRAILER_BITS;
use framing::Walk;

// Counts the bits that are left behind a level's terminator.
fn count_left(tally: &mut Tally, inside: bool, n: u32)
    ensures { (records paths payloads : List ℕ) → world_of tally.new records paths payloads
        ≡ played (leftover_of inside n ∷ []) (world_of tally.old records paths payloads) }
{
    if inside {
        count(&mut tally.nested, n);
    } else {
        count(&mut tally.root, n);
    }
}

// A level whose terminator ends before bit at: the trailer is taken, stays or fails, and what is left is
// counted (rule 3).
fn close_level(tally: &mut Tally, piece: &Piece, at: u64, walk: Walk, inside: bool)
    requires { at ≤ piece.now.end }
    ensures { (base : ℕ) (records paths payloads : List ℕ) → world_of tally.new records paths payloads
        ≡ played (closing (exit_sink walk inside) (inner piece.now.bytes.now base at piece.now.end) 0)
        (world_of tally.old records paths payloads) }
{
    let rest = (piece.end - at) as u32;
    let trailer = takes_trailer(walk);
    if !trailer {
        return count_left(tally, inside, rest);
    }
    if piece.end - at != TRAILER_BITS {
        return count_left(tally, inside, rest);
    }
    let Some(number) = number_at(piece, at) else {
        return count(&mut tally.errors, 1);
    };
    if number.value == 0 {
        return count_left(tally, inside, 0);
    }
    count_left(tally, inside, rest)
}

// The tail from bit at on, kept as a leaf `_raw` where bits remain (rule 7). The object walk keeps none.
fn keep_tail(out: &mut Outputs, piece: &Piece, at: u64, walk: Walk, plen: usize)
    requires { (at ≤ piece.now.end) × LabelFits plen }
    ensures { (inside : Bool) → Plays
        (tail (exit_sink walk inside) (inner_of piece.now at) (take plen out.old.path.now) 0)
        plen out.old out.new }
{
    if !gives_leaves(walk) {
        return;
    }
    if at == piece.end {
        return;
    }
    put_tail(out, piece, at, plen);
}

// An element's fields that don't close (rule 5).
pub fn stop_fields(out: &mut Outputs, h: Head, piece: &Piece, walk: Walk, plen: usize)
    requires { HeadIn piece.now.end h × LabelFits plen }
    ensures { (inside : Bool) → Plays
        (fields_stop (exit_sink walk inside) piece.now.bytes.now piece.now.base piece.now.end (take plen out.old.path.now) h)
        plen out.old out.new }
{
    match h {
        Head::Ended => count(&mut out.tally.implicit, 1),
        Head::Failed => count(&mut out.tally.errors, 1),
        Head::Closed(_) => (),
        Head::Limit(at) => {
            count(&mut out.tally.truncations, 1);
            keep_tail(out, piece, at, walk, plen);
        }
        Head::Go {
            value: _,
            body: _,
            next: _,
        } => (),
    }
}

// A level that ends (rules 1 to 4).
pub fn stop_level(out: &mut Outputs, h: Head, piece: &Piece, walk: Walk, inside: bool, plen: usize)
    requires { HeadIn piece.now.end h × LabelFits plen }
    ensures { Plays
        (level_stop (exit_sink walk inside) piece.now.bytes.now piece.now.base piece.now.end (take plen out.old.path.now) h)
        plen out.old out.new }
{
    if let Head::Closed(at) = h {
        return close_level(&mut out.tally, piece, at, walk, inside);
    }
    stop_fields(out, h, piece, walk, plen);
}
