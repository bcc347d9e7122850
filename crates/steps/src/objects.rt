// A field of the object walk (01, Walking an array, rule 8).
ghost use Rattle.std.specs.Prelude.{◌≡◌, ◌≤◌, ℕ, List, [], ◌∷◌};
ghost use Rattle.framing.specs.Events.{pair};
ghost use Rattle.framing.specs.Sinks.{object_field_lem};
ghost use Rattle.steps.specs.Tally.{world_of, played};
ghost use Rattle.steps.specs.Views.{inner};

use crate::heads::{number_at, take_number};
use crate::pieces::Piece;
use crate::tally::{Tally, count};
use outputs::PairRecord;
use outputs::records::{PAIR_WORDS, store_pair};

// A pair, written and counted.
fn put_pair(tally: &mut Tally, records: &mut [u32], index: u32, guid: u32)
    ensures { (paths payloads : List ℕ) → world_of tally.new records.new paths payloads
        ≡ played (pair (record { index = index; guid = guid }) ∷ []) (world_of tally.old records.old paths payloads) }
{
    let at = tally.records;
    store_pair(records, at, PairRecord { index, guid });
    count(&mut tally.fields, 1);
    count(&mut tally.records, PAIR_WORDS as u32);
}

// The piece's bits from bit `from` on as a field of the element `index`; first: no field before it had a payload.
pub fn object_field(
    tally: &mut Tally,
    piece: &Piece,
    from: u64,
    index: u32,
    first: bool,
    records: &mut [u32],
)
    requires { «from» ≤ piece.now.end }
    ensures { (base : ℕ) (paths payloads : List ℕ) → world_of tally.new records.new paths payloads
        ≡ played (object_field_lem index first (inner piece.now.bytes.now base «from» piece.now.end))
        (world_of tally.old records.old paths payloads) }
{
    let end = piece.end;
    if from == end {
        return;
    }
    if !first {
        count(&mut tally.nested, (end - from) as u32);
        return;
    }
    let Some(guid) = number_at(piece, from) else {
        return count(&mut tally.errors, 1);
    };
    take_number(&mut *tally, guid.padded);
    if guid.next == end {
        return put_pair(tally, records, index, guid.value);
    }
    count(&mut tally.errors, 1)
}
