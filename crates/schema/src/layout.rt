// The layout of the tables: a table that breaks it gives refusal 2.
ghost use Rattle.std.specs.Prelude.{◌≡◌, ◌+◌, ◌*◌, ◌/◌, ◌^◌, ◌≤◌, ◌<◌, length};
ghost use Rattle.schema.specs.Tables.{row_size, row_count, tables};
ghost use Rattle.schema.specs.Layout.{name_fits_lem, kind_fits_lem, row_fits, declared_fits, all_from, table_sized, schema_sized, declared_sized, root_fits_lem, schema_laid, declared_laid, laid_out};

use crate::lookup::cell_at;
use crate::{ABSENT, ARRAY_KIND, NAME_KIND, ROW_SIZE};
use bits::sizes::{MAX_HANDLES, MAX_LEVELS, MAX_NAME, MAX_POOL, MAX_ROWS};

// Whether a name lies in a pool of so many bytes.
#[tactic(auto, unfolding(crate::specs::Layout::name_fits_lem))]
fn name_fits(pool: usize, start: u32, len: u32) -> bool
    ensures { result ≡ name_fits_lem pool start len }
{
    len <= MAX_NAME && (start as usize) + (len as usize) <= pool
}

// Whether a and b of a row are what its kind asks.
#[tactic(auto, unfolding(crate::specs::Layout::kind_fits_lem))]
fn kind_fits(levels: u32, pool: usize, kind: u32, a: u32, b: u32) -> bool
    ensures { result ≡ kind_fits_lem levels pool kind a b }
{
    match kind {
        ARRAY_KIND => a < levels && b == 0,
        NAME_KIND => name_fits(pool, a, b),
        _ => false,
    }
}

// Whether row i keeps the layout.
#[tactic(auto, unfolding(crate::specs::Layout::row_fits))]
fn row_is_laid(rows: &[u32], levels: u32, pool: usize, i: usize) -> bool
    requires { row_size * i + row_size ≤ length rows.now }
    ensures { result ≡ row_fits rows.now levels pool i }
{
    cell_at(rows, i, 0) < levels
        && kind_fits(
            levels,
            pool,
            cell_at(rows, i, 1),
            cell_at(rows, i, 3),
            cell_at(rows, i, 4),
        )
}

// Whether all rows do.
fn rows_are_laid(rows: &[u32], levels: u32, pool: usize) -> bool
    ensures { result ≡ all_from (row_count rows.now) (row_fits rows.now levels pool) 0 }
{
    (0..rows.len() / ROW_SIZE).all(|i| row_is_laid(rows, levels, pool, i))
}

// Whether the declared name of handle h keeps the layout.
#[tactic(auto, unfolding(crate::specs::Layout::declared_fits))]
fn handle_is_laid(declared: &[u32], pool: usize, h: usize) -> bool
    requires { 2 * h + 2 ≤ length declared.now }
    ensures { result ≡ declared_fits declared.now pool h }
{
    let start = declared[2 * h];
    let len = declared[2 * h + 1];
    if start == ABSENT {
        len == 0
    } else {
        name_fits(pool, start, len)
    }
}

// Whether all declared names do.
fn handles_are_laid(declared: &[u32], pool: usize) -> bool
    ensures { result ≡ all_from (length declared.now / 2) (declared_fits declared.now pool) 0 }
{
    (0..declared.len() / 2).all(|h| handle_is_laid(declared, pool, h))
}

// Whether a table has whole rows of so many numbers, no more than `most` of them, and its pool its size.
fn is_sized(table: &[u32], size: usize, most: usize, pool: usize) -> bool
    requires { (0 < size) × (size * most < 2 ^ 64) }
    ensures { result ≡ table_sized table.now size most pool }
{
    table.len() <= size * most && table.len() % size == 0 && pool <= MAX_POOL
}

// Whether the schema has its sizes.
#[tactic(auto, unfolding(crate::specs::Layout::schema_sized))]
fn schema_is_sized(rows: &[u32], levels: u32, pool: usize) -> bool
    ensures { result ≡ schema_sized rows.now levels pool }
{
    levels <= MAX_LEVELS && is_sized(rows, ROW_SIZE, MAX_ROWS, pool)
}

// Whether the declared table has its sizes.
#[tactic(auto, unfolding(crate::specs::Layout::declared_sized))]
fn declared_is_sized(declared: &[u32], pool: usize) -> bool
    ensures { result ≡ declared_sized declared.now pool }
{
    is_sized(declared, 2, MAX_HANDLES, pool)
}

// Whether the root level is there, or there is no schema.
#[tactic(auto, unfolding(crate::specs::Layout::root_fits_lem))]
fn root_fits(levels: u32, root: u32) -> bool
    ensures { result ≡ root_fits_lem levels root }
{
    root == ABSENT || root < levels
}

// Whether the schema keeps its layout, with a pool of so many bytes.
#[tactic(auto, unfolding(crate::specs::Layout::schema_laid))]
fn schema_is_laid(rows: &[u32], levels: u32, root: u32, pool: usize) -> bool
    ensures { result ≡ schema_laid rows.now levels root pool }
{
    schema_is_sized(rows, levels, pool)
        && root_fits(levels, root)
        && rows_are_laid(rows, levels, pool)
}

// Whether the declared table does.
#[tactic(auto, unfolding(crate::specs::Layout::declared_laid))]
fn declared_is_laid(declared: &[u32], pool: usize) -> bool
    ensures { result ≡ declared_laid declared.now pool }
{
    declared_is_sized(declared, pool) && handles_are_laid(declared, pool)
}

// Whether the tables keep their layout; false is refusal 2. A root of 4294967295 (ABSENT) says that there is no schema, and a
// declared row that starts there, with length 0, that its handle has no declared name; the tables are looked at all the same.
#[tactic(auto, unfolding(crate::specs::Layout::laid_out))]
pub fn check_tables(
    rows: &[u32],
    levels: u32,
    root: u32,
    names: &[u8],
    declared: &[u32],
    declared_names: &[u8],
) -> bool
    ensures { result ≡ laid_out
        (tables rows.now names.now declared.now declared_names.now) levels root }
{
    schema_is_laid(rows, levels, root, names.len())
        && declared_is_laid(declared, declared_names.len())
}
