// Deleted ids and changed items.
ghost use Rattle.std.specs.Prelude.{◌≡◌, ◌+◌, ◌*◌, ◌≤◌};
ghost use Rattle.bits.specs.Sizes.{longest_window};
ghost use Rattle.fastarray.specs.Body.{window, deleted_from, items_from, flag_bits_lem};
ghost use Rattle.fastarray.specs.Records.{deleted_record, store_all};
ghost use Rattle.fastarray.specs.Parts.{items_read_of, ItemsStored};

use crate::fields::read_fields;
use crate::read::{flag_bits, signed_of, word_of};
use crate::store::store_record;
use crate::{ChecksumMode, Reached, Window};

// count deleted ids from bit at on.
pub fn read_deleted(w: &Window, at: u64, count: u64, deleted: &mut [i32])
    requires { at + 32 * count ≤ w.now.end }
    ensures { deleted.new ≡ store_all deleted_record deleted.old 0
        (deleted_from count (window w.now.bytes.now w.now.end) at) }
{
    // As below.
    let inside = *w;
    for done in 0..count {
        let id = signed_of(&inside, at + 32 * done);
        store_record(deleted, done, [id]);
    }
}

// count items from bit at on.
pub fn read_items(
    w: &Window,
    at: u64,
    count: u64,
    mode: ChecksumMode,
    items: &mut [u32],
    fields: &mut [u32],
) -> Option<Reached>
    requires { (at ≤ w.now.end) × (count ≤ longest_window) }
    ensures says { result ≡ items_read_of 0 0
        (items_from count (flag_bits_lem mode) (window w.now.bytes.now w.now.end) w.now.end at) }
    ensures stored { ItemsStored
        (items_from count (flag_bits_lem mode) (window w.now.bytes.now w.now.end) w.now.end at) 0 0
        items.old fields.old items.new fields.new }
{
    // A copy of its own, since what a field writes might be the lent one, for all that the compiler knows: that would be read anew for each.
    let inside = *w;
    let lead = 32 + flag_bits(mode);
    let mut reached = Reached {
        fields: 0,
        next: at,
        padded: 0,
    };
    for done in 0..count {
        if inside.end - reached.next < lead {
            return None;
        }
        let id = word_of(&inside, reached.next);
        let start = Reached {
            next: reached.next + lead,
            ..reached
        };
        let read = read_fields(&inside, start, fields)?;
        let here = (read.fields - reached.fields) as u32;
        store_record(items, done, [id, here]);
        reached = read;
    }
    Some(reached)
}
