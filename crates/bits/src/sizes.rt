// The sizes of document 01 (Sizes), each once. crates/bits/specs/Sizes.antt has the same numbers for definitions.

// Bits of a window that is opened by its bit count, or walked.
pub const LONGEST_WINDOW: u32 = 524288;

// Elements of a level.
pub const MAX_ELEMENTS: u32 = 4096;

// Fields of an element.
pub const MAX_FIELDS: u32 = 128;

// Levels of nesting.
pub const MAX_NESTING: u32 = 12;

// Levels that may stand below the root's.
pub const LEVELS_BELOW: u32 = MAX_NESTING - 1;

// The trailer's bits.
pub const TRAILER_BITS: u64 = 8;

// Levels of a schema.
pub const MAX_LEVELS: u32 = 64;

// Rows of a schema.
pub const MAX_ROWS: usize = 512;

// Declared handles.
pub const MAX_HANDLES: usize = 1024;

// Bytes of a name.
pub const MAX_NAME: u32 = 64;

// Bytes of a name pool.
pub const MAX_POOL: usize = 65536;

// Bytes of a path, at most: twelve levels of an index of four digits in brackets, a dot and a name. Document 01 allows 1,024.
pub const LONGEST_PATH: usize = 852;
