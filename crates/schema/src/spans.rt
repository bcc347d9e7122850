// Look-ups in the rows of one level: the walkers look up once for each field.
ghost use Rattle.std.specs.Prelude.{◌≡◌, ◌+◌, ◌-◌, ◌*◌, ◌^◌, ◌≤◌, ◌<◌, length};
ghost use Rattle.bits.specs.Sizes.{max_levels};
ghost use Rattle.schema.specs.Tables.{row_size};
ghost use Rattle.schema.specs.Spans.{kind_in, span_place, with_row_lem, spans_of, entry_in_lem, entry_at};

use crate::lookup::{cell_at, clipped, name_in_row};
use crate::{ARRAY_KIND, Entry, NAME_KIND, ROW_SIZE, Span};
use bits::sizes::MAX_LEVELS;

// A span for each level that a schema may have, and one that all others share.
pub const SPANS: usize = (MAX_LEVELS as usize) + 1;

pub type Spans = [Span; SPANS];

// Where the span of a level stands.
#[tactic(auto, unfolding(crate::specs::Spans::span_place))]
fn place_of(level: u32) -> usize
    ensures { (result ≡ span_place level) × (result ≤ max_levels) }
{
    level.min(MAX_LEVELS) as usize
}

// The span with row i, which stands behind its others.
#[tactic(auto, unfolding(crate::specs::Spans::with_row_lem))]
fn with_row(span: Span, i: usize) -> Span
    requires { i < 2 ^ 64 - 1 }
    ensures { result ≡ with_row_lem span i }
{
    let first = if span.last == 0 { i } else { span.first };
    Span { first, last: i + 1 }
}

// The span of each level.
pub fn level_spans(rows: &[u32]) -> Spans
    ensures { result ≡ spans_of rows.now }
{
    let mut spans = [Span { first: 0, last: 0 }; SPANS];
    for i in 0..rows.len() / ROW_SIZE {
        let at = place_of(cell_at(rows, i, 0));
        spans[at] = with_row(spans[at], i);
    }
    spans
}

// What a row says of its handle.
#[derive(Clone, Copy)]
enum Kind {
    Array,
    Name,
}

// What row i says of a handle of a level.
#[tactic(auto, unfolding(crate::specs::Tables::row_matches_lem))]
fn kind_at(rows: &[u32], i: usize, level: u32, handle: u32) -> Option<Kind>
    requires { row_size * i + row_size ≤ length rows.now }
    ensures { result ≡ kind_in rows.now level handle i }
{
    if cell_at(rows, i, 2) != handle || cell_at(rows, i, 0) != level {
        return None;
    }
    match cell_at(rows, i, 1) {
        ARRAY_KIND => Some(Kind::Array),
        NAME_KIND => Some(Kind::Name),
        _ => None,
    }
}

// What the rows of a span say of a handle of a level. From the last row to the first, so that the first that matches stays.
pub fn entry_in(rows: &[u32], span: Span, level: u32, handle: u32) -> Entry
    ensures { result ≡ entry_in_lem rows.now span level handle }
{
    let mut entry = Entry {
        elements: None,
        name: None,
    };
    for i in (span.first..clipped(rows, span.last)).rev() {
        match kind_at(rows, i, level, handle) {
            Some(Kind::Array) => entry.elements = Some(cell_at(rows, i, 3)),
            Some(Kind::Name) => entry.name = Some(name_in_row(rows, i)),
            None => {}
        }
    }
    entry
}

// What the rows of a level's span say of a handle.
#[tactic(auto, unfolding(crate::specs::Spans::entry_at, crate::specs::Spans::span_at))]
pub fn entry_of(rows: &[u32], spans: &Spans, level: u32, handle: u32) -> Entry
    ensures { result ≡ entry_at rows.now spans.now level handle }
{
    entry_in(rows, spans[place_of(level)], level, handle)
}
