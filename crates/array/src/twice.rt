// Both passes of a walk: the first is lent nothing and measures, the second writes if the outputs hold what that found, which is
// else the Err. In an object walk the leaves are pairs.
ghost use Rattle.std.specs.Prelude.{◌≡◌};
ghost use Rattle.schema.specs.Tables.{tables};
ghost use Rattle.schema.specs.Spans.{spans_of};
ghost use Rattle.framing.specs.Sinks.{walker};
ghost use Rattle.array.specs.Calls.{lent};
ghost use Rattle.array.specs.Passing.{Passable, TwoPasses};

use crate::passes::{extent_of, has_room, measure, padded_of, pass, stats_of};
use crate::verdicts::window_verdict;
use crate::{Extent, Walked};
use bits::sizes::{LONGEST_PATH, MAX_LEVELS};
use framing::Walk;
use schema::spans::{SPANS, Spans};
use schema::{ROW_SIZE, Span};
use steps::tables::{LentTables, Pools};
use steps::tally::Tally;
use steps::writes::Outputs;

// No level has a row.
const NO_SPANS: Spans = [Span { first: 0, last: 0 }; SPANS];

// The span of each level, which `schema::spans::level_spans` gives. These are lent: given back, their 1,040 bytes are copied.
fn fill_spans(rows: &[u32], spans: &mut Spans)
    ensures { spans.new ≡ spans_of rows.now }
{
    *spans = NO_SPANS;
    for i in 0..rows.len() / ROW_SIZE {
        let at = rows[ROW_SIZE * i].min(MAX_LEVELS) as usize;
        let first = if spans[at].last == 0 {
            i
        } else {
            spans[at].first
        };
        spans[at] = Span { first, last: i + 1 };
    }
}

pub fn two_passes(
    bytes: &[u8],
    bits: u64,
    walk: Walk,
    root: u32,
    rows: &[u32],
    names: &[u8],
    declared: &[u32],
    declared_names: &[u8],
    records: &mut [u32],
    paths: &mut [u8],
    payloads: &mut [u8],
) -> Result<Walked<Extent>, Extent>
    requires { Passable bits (tables rows.now names.now declared.now declared_names.now) }
    ensures { TwoPasses
        (walker walk (tables rows.now names.now declared.now declared_names.now) root)
        bytes.now bits
        (lent records.old paths.old payloads.old)
        result
        (lent records.new paths.new payloads.new) }
{
    let mut spans = NO_SPANS;
    fill_spans(rows, &mut spans);
    let looked_up = LentTables {
        rows,
        spans: &spans,
        declared,
        pools: Pools {
            names,
            declared_names,
        },
    };
    let mut path = [0u8; LONGEST_PATH];
    let need = measure(bytes, bits, walk, root, &looked_up, &mut path);
    let filled = extent_of(walk, &need);
    if !has_room(walk, filled, records.len(), paths.len(), payloads.len()) {
        return Err(filled);
    }
    let mut out = Outputs {
        tally: Tally::default(),
        path: &mut path,
        records,
        paths,
        payloads,
    };
    pass(&mut out, bytes, bits, walk, root, &looked_up);
    let stats = stats_of(&out.tally);
    let verdict = window_verdict(walk, bits, stats);
    let padded = padded_of(&out.tally);
    Ok(Walked {
        stats,
        verdict,
        filled,
        padded,
    })
}
