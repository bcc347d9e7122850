// Look-ups in the schema's rows and in the declared table: the first row that matches counts.
ghost use Rattle.std.specs.Prelude.{◌≡◌, ◌+◌, ◌*◌, ◌≤◌, ◌<◌, min, length};
ghost use Rattle.schema.specs.Tables.{row_size, cell, row_matches_lem, row_count, row_in, row_of, child, named_at, schema_name, declared_name_lem};

use crate::{ABSENT, ARRAY_KIND, NAME_KIND, NameAt, ROW_SIZE, Span};

// Number j of row i.
#[tactic(auto, unfolding(crate::specs::Tables::cell))]
pub(crate) fn cell_at(rows: &[u32], i: usize, j: usize) -> u32
    requires { (row_size * i + row_size ≤ length rows.now) × (j < row_size) }
    ensures { result ≡ cell rows.now i j }
{
    let at = ROW_SIZE * i + j;
    rows[at]
}

// Whether row i is of this level, kind and handle. These stay three numbers: a walker has a level and a handle from two places, and a struct of
// them would be made at each call only to be taken apart here.
#[tactic(auto, unfolding(crate::specs::Tables::row_matches_lem))]
fn row_matches(rows: &[u32], i: usize, level: u32, kind: u32, handle: u32) -> bool
    requires { row_size * i + row_size ≤ length rows.now }
    ensures { result ≡ row_matches_lem rows.now level kind handle i }
{
    cell_at(rows, i, 0) == level && cell_at(rows, i, 1) == kind && cell_at(rows, i, 2) == handle
}

// The row number last, or the number of whole rows where that is less.
pub(crate) fn clipped(rows: &[u32], last: usize) -> usize
    ensures { result ≡ min last (row_count rows.now) }
{
    last.min(rows.len() / ROW_SIZE)
}

// The first row that matches, of those of a span.
pub fn first_row(rows: &[u32], span: Span, level: u32, kind: u32, handle: u32) -> Option<usize>
    ensures { result ≡ row_in rows.now span level kind handle }
{
    let end = clipped(rows, span.last);
    (span.first..end).find(|&i| row_matches(rows, i, level, kind, handle))
}

// The first row that matches.
pub fn row_of(rows: &[u32], level: u32, kind: u32, handle: u32) -> Option<usize>
    ensures { result ≡ row_of rows.now level kind handle }
{
    let all = Span {
        first: 0,
        last: rows.len() / ROW_SIZE,
    };
    first_row(rows, all, level, kind, handle)
}

// The level of the elements of a handle of a level, where the schema calls it an array.
#[tactic(auto, using(crate::proofs::RowLaws::row_there), unfolding(crate::specs::Tables::child))]
pub fn child_of(rows: &[u32], level: u32, handle: u32) -> Option<u32>
    ensures { result ≡ child rows.now level handle }
{
    let row = row_of(rows, level, ARRAY_KIND, handle)?;
    Some(cell_at(rows, row, 3))
}

// The name that row i gives.
pub(crate) fn name_in_row(rows: &[u32], i: usize) -> NameAt
    requires { row_size * i + row_size ≤ length rows.now }
    ensures { result ≡ named_at (cell rows.now i 3) (cell rows.now i 4) }
{
    NameAt {
        start: cell_at(rows, i, 3),
        len: cell_at(rows, i, 4),
    }
}

// Where the schema's name of a handle stands in its pool.
#[tactic(auto, using(crate::proofs::RowLaws::row_there), unfolding(crate::specs::Tables::schema_name))]
pub fn name_of(rows: &[u32], level: u32, handle: u32) -> Option<NameAt>
    ensures { result ≡ schema_name rows.now level handle }
{
    let row = row_of(rows, level, NAME_KIND, handle)?;
    Some(name_in_row(rows, row))
}

// Where the declared name of a handle stands in its pool. A handle past the table has none, nor has one whose row starts at
// 4294967295 (ABSENT).
#[tactic(auto, unfolding(crate::specs::Tables::declared_name_lem))]
pub fn declared_name(declared: &[u32], handle: u32) -> Option<NameAt>
    ensures { result ≡ declared_name_lem declared.now handle }
{
    let at = 2 * (handle as usize);
    let start = declared.get(at).copied()?;
    if start == ABSENT {
        return None;
    }
    let len = declared.get(at + 1).copied().unwrap_or(0);
    Some(NameAt { start, len })
}
