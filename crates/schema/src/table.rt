// The rows of the twelve levels, and their names one behind the other.
use crate::twelve::{NAME_BYTES, ROW_NUMBERS};

// Five numbers a row: level, kind, handle, a, b.
pub(crate) const ROWS: [u32; ROW_NUMBERS] = [
    1, 0, 4, 10, 0, 1, 1, 4, 0, 7, 2, 0, 13, 3, 0, 2, 1, 13, 7, 7, 3, 0, 18, 11, 0, 3, 1, 14, 14,
    9, 3, 1, 15, 23, 13, 3, 1, 16, 36, 5, 3, 1, 17, 41, 4, 3, 1, 18, 45, 20, 4, 1, 10, 65, 16, 4,
    1, 11, 81, 10, 4, 1, 12, 91, 9, 4, 1, 13, 100, 17, 5, 1, 1, 65, 16, 5, 1, 2, 81, 10, 5, 1, 3,
    91, 9, 5, 1, 4, 100, 17, 6, 1, 2, 65, 16, 6, 1, 3, 81, 10, 6, 1, 4, 91, 9, 6, 1, 5, 100, 17, 7,
    0, 44, 0, 0, 7, 1, 44, 117, 7, 8, 0, 79, 0, 0, 8, 1, 79, 117, 7, 9, 0, 26, 7, 0, 9, 0, 61, 8,
    0, 9, 1, 26, 124, 17, 9, 1, 61, 141, 20, 10, 0, 10, 9, 0, 10, 1, 10, 161, 12, 11, 1, 19, 173,
    14, 11, 1, 20, 36, 5,
];

pub(crate) const NAMES: [u8; NAME_BYTES] =
    *b"ReportsEffectsStatisticLocalizedStatValueTimeAffectedTargetsArrayChangedComponentLifeResultDeltaLifebAliveAfterChangeRegionsDealtInteractionsReceivedInteractionsInteractionsAffectedPlayer";
