// The twelve levels of schema.rs as one table, and the levels that a walk may start at.
ghost use Rattle.std.specs.Prelude.{◌≡◌};
ghost use Rattle.schema.specs.TwelveLevels.{public_levels_lem, FillsSchema};

use crate::Short;
use crate::table::{NAMES, ROWS};

// The levels that the code names, by number. The table has five more, 7 to 11, which the header for C names.
pub const LEAVES: u32 = 0;

pub const COMBAT_ROUNDS: u32 = 1;

pub const ABILITY_CASTS: u32 = 2;

pub const ABILITY_EFFECTS: u32 = 3;

pub const LIFE_CHANGE_DAMAGE: u32 = 4;

pub const LIFE_CHANGE_SECTION: u32 = 5;

pub const LIFE_CHANGE_BY_SECTION: u32 = 6;

pub const LEVELS: u32 = 12;

// What the buffers need: u32 of rows, bytes of names.
pub const ROW_NUMBERS: usize = 170;

pub const NAME_BYTES: usize = 187;

// The levels that schema.rs makes public.
pub fn public_levels() -> [u32; 6]
    ensures { result ≡ public_levels_lem }
{
    [
        COMBAT_ROUNDS,
        ABILITY_CASTS,
        ABILITY_EFFECTS,
        LIFE_CHANGE_DAMAGE,
        LIFE_CHANGE_SECTION,
        LIFE_CHANGE_BY_SECTION,
    ]
}

// The table to the front of the two buffers; what both need where one is too short.
#[tactic(auto, unfolding(crate::specs::TwelveLevels::enough, crate::specs::TwelveLevels::fill_answer, crate::specs::TwelveLevels::filled_rows, crate::specs::TwelveLevels::filled_names))]
pub fn fill_schema(rows: &mut [u32], names: &mut [u8]) -> Result<(), Short>
    ensures { FillsSchema rows.old names.old result rows.new names.new }
{
    if rows.len() < ROW_NUMBERS || names.len() < NAME_BYTES {
        return Err(Short {
            rows: ROW_NUMBERS,
            names: NAME_BYTES,
        });
    }
    rows[..ROW_NUMBERS].copy_from_slice(&ROWS);
    names[..NAME_BYTES].copy_from_slice(&NAMES);
    Ok(())
}
