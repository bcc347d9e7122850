// The header, and what the whole body needs.
ghost use Rattle.std.specs.Prelude.{◌≡◌};
ghost use Rattle.fastarray.specs.Body.{window, headed, body_of, flag_bits_lem};
ghost use Rattle.fastarray.specs.Parts.{measured_of};

use crate::items::read_items;
use crate::read::{first_bit, flag_bits, signed_of, word_of};
use crate::{ChecksumMode, Delta, HEADER_BITS, Window};

// Where the words of the header start.
const KEY_BIT: u64 = 1;

const BASE_BIT: u64 = 33;

const DELETES_BIT: u64 = 65;

const CHANGES_BIT: u64 = 97;

// What the header asks: the support bit, counts that are not negative, and bits enough for what they announce.
pub fn is_headed(w: &Window, mode: ChecksumMode) -> bool
    ensures { result ≡ headed (flag_bits_lem mode) (window w.now.bytes.now w.now.end) w.now.end }
{
    if w.end < HEADER_BITS {
        return false;
    }
    let support = first_bit(w);
    if support != 1 {
        return false;
    }
    let deletes = word_of(w, DELETES_BIT) as u64;
    if 0x8000_0000 <= deletes {
        return false;
    }
    let changes = word_of(w, CHANGES_BIT) as u64;
    if 0x8000_0000 <= changes {
        return false;
    }
    let least = 32 * deletes + (40 + flag_bits(mode)) * changes;
    HEADER_BITS + least <= w.end
}

// The items are read, lent less than a record, for how many fields and padded numbers they have and where they end.
pub fn measure(w: &Window, mode: ChecksumMode) -> Option<Delta>
    ensures { result ≡ measured_of (body_of (flag_bits_lem mode) (window w.now.bytes.now w.now.end) w.now.end) }
{
    if !is_headed(w, mode) {
        return None;
    }
    let key = signed_of(w, KEY_BIT);
    let base = signed_of(w, BASE_BIT);
    let deletes = word_of(w, DELETES_BIT);
    let changes = word_of(w, CHANGES_BIT);
    let at = HEADER_BITS + 32 * (deletes as u64);
    let mut no_items = [0u32; 1];
    let mut no_fields = [0u32; 1];
    let wanted = changes as u64;
    let read = read_items(w, at, wanted, mode, &mut no_items, &mut no_fields)?;
    if read.next != w.end {
        return None;
    }
    let fields = read.fields as u32;
    let used = read.next as u32;
    let padded = read.padded as u32;
    Some(Delta {
        key,
        base,
        deletes,
        changes,
        fields,
        used,
        padded,
    })
}
