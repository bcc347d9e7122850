// Lists of u32 in a case, with the low byte first.
ghost use Rattle.std.specs.Prelude.{◌≤◌, length};

use crate::answers::Fault;

// Rooms for the numbers of a table's rows and of declared names: more than document 01 accepts (512 rows of 5, 1,024 handles
// of 2), so that lists over size are replayed too. `say` names both for a longer one. They are fixed: there is no heap.
pub const ROW_ROOM: usize = 2600;

pub const DECLARED_ROOM: usize = 2100;

// Why a table's rows and declared names can't be replayed, if they can't.
pub fn check_tables(rows: &[u8], declared: &[u8]) -> Result<(), Fault> {
    if rows.len() % 4 != 0 || declared.len() % 4 != 0 {
        return Err(Fault::Layout);
    }
    if ROW_ROOM < rows.len() / 4 || DECLARED_ROOM < declared.len() / 4 {
        return Err(Fault::List);
    }
    Ok(())
}

// The u32 of a list, in the front of `room`, as many as it takes.
pub fn unpack<'a>(list: &[u8], room: &'a mut [u32]) -> &'a [u32]
    ensures { length result.now ≤ length room.old }
{
    let (words, _) = list.as_chunks::<4>();
    let n = words.len().min(room.len());
    let front = &mut room[..n];
    for (number, word) in front.iter_mut().zip(words) {
        *number = u32::from_le_bytes(*word);
    }
    front
}
