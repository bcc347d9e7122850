// The twelve levels by name, and the schema as a list.
use schema::ROW_SIZE;
use schema::twelve::LEVELS;
use std::io;

// A level's name as KIND has it. The order is that of the numbers in schema::twelve.
fn name_of(level: u32) -> &'static str {
    match level {
        0 => "leaves",
        1 => "combat-rounds",
        2 => "ability-casts",
        3 => "ability-effects",
        4 => "life-change-damage",
        5 => "life-change-section",
        6 => "life-change-by-section",
        7 => "dealt-interaction",
        8 => "received-interaction",
        9 => "participant",
        10 => "character-report",
        11 => "affected-target",
        _ => "unknown",
    }
}

// The level of that name.
pub fn level_of(word: &[u8]) -> Option<u32> {
    (0..LEVELS).find(|level| name_of(*level).as_bytes() == word)
}

fn say_level(out: &impl Print, level: u32) -> io::Result<()> {
    let name = name_of(level);
    print!(out; "level {level} {name}")
}

// A handle that has a name: its number, its name, and what it holds.
fn say_handle(
    out: &impl Print,
    rows: &[u32],
    names: &[u8],
    level: u32,
    handle: u32,
) -> io::Result<()> {
    let label = schema::labels::container_label(rows, level, handle);
    print!(out; "    handle {handle} ")?;
    out.write_all(schema::labels::label_part(names, names, label))?;
    if let Some(below) = schema::lookup::child_of(rows, level, handle) {
        print!(out; ": an array of ")?;
        say_level(out, below)?;
    }
    out.println("")
}

// The rows that name a handle of the level. Each array of the twelve levels has a name, so none is left out.
fn say_rows(out: &impl Print, rows: &[u32], names: &[u8], level: u32) -> io::Result<()> {
    let (rows_of_numbers, _) = rows.as_chunks::<ROW_SIZE>();
    for [of, kind, handle, _, _] in rows_of_numbers {
        if *of == level && *kind == schema::NAME_KIND {
            say_handle(out, rows, names, level, *handle)?;
        }
    }
    Ok(())
}

// The twelve levels: what each is called as KIND, and the handles that have a name.
pub fn list(out: &impl Print) -> io::Result<()> {
    let mut rows = [0u32; schema::twelve::ROW_NUMBERS];
    let mut names = [0u8; schema::twelve::NAME_BYTES];
    let _ = schema::twelve::fill_schema(&mut rows, &mut names);
    for level in 0..LEVELS {
        say_level(out, level)?;
        out.println("")?;
        say_rows(out, &rows, &names, level)?;
    }
    Ok(())
}
