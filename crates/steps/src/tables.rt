// What a walk looks up, as it is lent: the schema's rows with the span of each level, the declared handles, and both pools of
// names.
ghost use Rattle.std.specs.Prelude.{◌≡◌};
ghost use Rattle.schema.specs.Spans.{spans_of};

use framing::Walk;
use schema::spans::Spans;

// The bytes of the schema's names, and those of the declared ones.
#[derive(Clone, Copy)]
pub struct Pools<'a> {
    pub names: &'a [u8],
    pub declared_names: &'a [u8],
}

// The spans are those of the rows.
#[derive(Clone, Copy)]
pub struct LentTables<'a> {
    pub rows: &'a [u32],
    pub spans: &'a Spans,
    pub declared: &'a [u32],
    pub pools: Pools<'a>,
    pub ghost spans_are: { spans.now ≡ spans_of rows.now },
}

// Where a walk stands among the levels: the schema's level, with `below` levels allowed under it.
#[derive(Clone, Copy)]
pub struct Spot<'a> {
    pub walk: Walk,
    pub tables: &'a LentTables<'a>,
    pub below: u32,
    pub level: u32,
}
