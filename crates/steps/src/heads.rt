// What stands at a position: the heads of a level, of an element and of a field. Padded numbers that they take are counted.
ghost use Rattle.std.specs.Prelude.{◌≡◌, ◌≤◌};
ghost use Rattle.bits.specs.Padded.{once};
ghost use Rattle.framing.specs.Windows.{reading};
ghost use Rattle.steps.specs.Tally.{Pads};
ghost use Rattle.steps.specs.Views.{all_of};
ghost use Rattle.steps.specs.Heads.{number_of, level_head_lem, element_head_lem, field_head_lem, width_head_lem, number_pads, element_pads, field_pads};

use crate::pieces::Piece;
use crate::tally::{Tally, count};
use crate::{Head, NumberRead};
use bits::sizes::MAX_ELEMENTS;

// The packed number at bit at, if one can be read.
pub fn number_at(piece: &Piece, at: u64) -> Option<NumberRead>
    requires { at ≤ piece.now.end }
    ensures { result ≡ number_of at (reading (all_of piece.now) at) }
{
    let found = bits::number::packed_at(piece.bytes, at, piece.end).ok()?;
    Some(NumberRead {
        value: found.value,
        next: at + 8 * found.bytes,
        padded: found.padded,
    })
}

// Counts a number that was taken, if it is padded.
pub fn take_number(tally: &mut Tally, padded: bool)
    ensures { Pads (once padded) tally.old tally.new }
{
    if padded {
        count(&mut tally.padded, 1);
    }
}

// A level: its count (01, Walking an array, rule 1).
pub fn level_head(tally: &mut Tally, piece: &Piece, at: u64) -> Head
    requires { at ≤ piece.now.end }
    ensures says { result ≡ level_head_lem (all_of piece.now) at }
    ensures pads { Pads (number_pads (all_of piece.now) at) tally.old tally.new }
{
    let Some(count) = number_at(piece, at) else {
        return Head::Failed;
    };
    take_number(tally, count.padded);
    if MAX_ELEMENTS < count.value {
        return Head::Limit(count.next);
    }
    Head::Go {
        value: count.value,
        body: count.next,
        next: count.next,
    }
}

// An element of an array of `count`, of which `left` more are allowed: its index (rules 2 and 3).
pub fn element_head(tally: &mut Tally, piece: &Piece, count: u32, left: u32, at: u64) -> Head
    ensures says { result ≡ element_head_lem (all_of piece.now) count left at }
    ensures pads { Pads (element_pads (all_of piece.now) left at) tally.old tally.new }
{
    let end = piece.end;
    if end <= at {
        return Head::Ended;
    }
    let Some(number) = number_at(piece, at) else {
        return Head::Failed;
    };
    if number.value == 0 {
        take_number(tally, number.padded);
        return Head::Closed(number.next);
    }
    if left == 0 {
        return Head::Limit(at);
    }
    take_number(tally, number.padded);
    if count < number.value {
        return Head::Failed;
    }
    Head::Go {
        value: number.value - 1,
        body: number.next,
        next: number.next,
    }
}

// The width of a field and its payload, the width's number due at bit at.
fn width_head(tally: &mut Tally, piece: &Piece, handle: u32, at: u64) -> Head
    requires { at ≤ piece.now.end }
    ensures says { result ≡ width_head_lem (all_of piece.now) handle at }
    ensures pads { Pads (number_pads (all_of piece.now) at) tally.old tally.new }
{
    let end = piece.end;
    let Some(width) = number_at(piece, at) else {
        return Head::Failed;
    };
    take_number(tally, width.padded);
    let body = width.next;
    let wide = width.value as u64;
    if end - body < wide {
        return Head::Failed;
    }
    Head::Go {
        value: handle,
        body,
        next: body + wide,
    }
}

// A field, its numbers of any length. `element_head` asks the same of its number first: one function for both would answer with a number or a
// head, for each caller to take apart, and its contract would say what both of theirs say of each case.
fn long_field_head(tally: &mut Tally, piece: &Piece, left: u32, at: u64) -> Head
    ensures says { result ≡ field_head_lem (all_of piece.now) left at }
    ensures pads { Pads (field_pads (all_of piece.now) left at) tally.old tally.new }
{
    let end = piece.end;
    if end <= at {
        return Head::Ended;
    }
    let Some(number) = number_at(piece, at) else {
        return Head::Failed;
    };
    if number.value == 0 {
        take_number(tally, number.padded);
        return Head::Closed(number.next);
    }
    if left == 0 {
        return Head::Limit(at);
    }
    take_number(&mut *tally, number.padded);
    width_head(tally, piece, number.value - 1, number.next)
}

// A field, of which `left` more are allowed: its handle and payload (rule 5). Numbers of one byte each are read together.
pub fn field_head(tally: &mut Tally, piece: &Piece, left: u32, at: u64) -> Head
    ensures says { result ≡ field_head_lem (all_of piece.now) left at }
    ensures pads { Pads (field_pads (all_of piece.now) left at) tally.old tally.new }
{
    let end = piece.end;
    if end <= at {
        return Head::Ended;
    }
    if end - at < 16 {
        return long_field_head(tally, piece, left, at);
    }
    let two = bits::field::two_bytes_at(piece.bytes, at);
    let first = two % 256;
    let next = at + 8;
    if first == 0 {
        return Head::Closed(next);
    }
    if first % 2 == 1 {
        return long_field_head(tally, piece, left, at);
    }
    if left == 0 {
        return Head::Limit(at);
    }
    let handle = (first / 2 - 1) as u32;
    let second = two / 256;
    if second % 2 == 1 {
        return width_head(tally, piece, handle, next);
    }
    let wide = second / 2;
    let body = at + 16;
    if end - body < wide {
        return Head::Failed;
    }
    let behind = body + wide;
    Head::Go {
        value: handle,
        body: body,
        next: behind,
    }
}
