// The fields of an item.
ghost use Rattle.std.specs.Prelude.{◌≡◌, ◌≤◌};
ghost use Rattle.fastarray.specs.Body.{window, lead_at, fields_at};
ghost use Rattle.fastarray.specs.Parts.{head_of, fields_read_of, FieldsStored};

use crate::read::{number_of, padded_one, padded_two};
use crate::store::store_record;
use crate::{FieldHead, Reached, Window};

// What stands where a handle number is due, and nothing where a number can't be read or a payload passes the window; padded: how
// many of the numbers before it are.
pub fn field_head(w: &Window, at: u64, padded: u64) -> Option<FieldHead>
    requires { (at ≤ w.now.end) × (padded ≤ at) }
    ensures { result ≡ head_of padded (lead_at (window w.now.bytes.now w.now.end) w.now.end at) }
{
    let first = number_of(w, at)?;
    let behind = at + 8 * first.bytes;
    if first.value == 0 {
        let last = padded_one(padded, first);
        return Some(FieldHead::Closes {
            next: behind,
            padded: last,
        });
    }
    let second = number_of(w, behind)?;
    let offset = behind + 8 * second.bytes;
    let left = w.end - offset;
    let width = second.value;
    if left < width as u64 {
        return None;
    }
    let handle = first.value - 1;
    let both = padded_two(padded, first, second);
    Some(FieldHead::Opens {
        handle,
        offset,
        width,
        padded: both,
    })
}

// The fields from there on, stored behind those before them.
pub fn read_fields(w: &Window, from: Reached, fields: &mut [u32]) -> Option<Reached>
    requires { (from.next ≤ w.now.end) × (from.fields ≤ from.next) × (from.padded ≤ from.next) }
    ensures says { result ≡ fields_read_of from.fields from.padded (fields_at (window w.now.bytes.now w.now.end) w.now.end from.next) }
    ensures stored { FieldsStored (fields_at (window w.now.bytes.now w.now.end) w.now.end from.next)
        fields.old from.fields fields.new }
{
    let mut reached = from;
    loop {
        let head = field_head(w, reached.next, reached.padded)?;
        match head {
            FieldHead::Closes { next, padded } => {
                return Some(Reached {
                    next,
                    padded,
                    ..reached
                });
            }
            FieldHead::Opens {
                handle,
                offset,
                width,
                padded,
            } => {
                let start = offset as u32;
                store_record(fields, reached.fields, [handle, start, width]);
                reached = Reached {
                    fields: reached.fields + 1,
                    next: offset + (width as u64),
                    padded,
                };
            }
        }
    }
}
