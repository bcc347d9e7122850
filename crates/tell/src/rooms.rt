// The rooms of `vrf`, in records and bytes: what a refusal for too little room names beside the needs. Each but that of the
// paths has room for all that a window can give.
use bits::sizes::LONGEST_WINDOW;

// Leaves, pairs, or fields of items: with the numbers in front of it each takes 16 bits at least.
pub const MOST_FIELDS: usize = (LONGEST_WINDOW as usize) / 16;

// 32 bytes for each of the most leaves: a MiB. Paths can need more, which is refusal 3.
pub const PATH_BYTES: usize = 32 * MOST_FIELDS;

// A leaf's payload, rounded up to bytes, takes no more than the leaf does in the window.
pub const PAYLOAD_BYTES: usize = (LONGEST_WINDOW as usize) / 8;

// Deleted ids, and items: a deleted id takes 32 bits, an item 40 at least.
pub const MOST_IDS: usize = (LONGEST_WINDOW as usize) / 32;
