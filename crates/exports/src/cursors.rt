// Cursors from C, and answers of the bit reader as structs for C.
ghost use Rattle.std.specs.Prelude.{◌≡◌, MatchResult};
ghost use Rattle.bitio.specs.Refusals.{numbered, stands_after_lem};
ghost use Rattle.exports.specs.ReadResults.{cursor_of_lem, read_value_lem, refused_at, refused_read, NumberRead, packed_value_lem, no_packed_lem, packed_result, copy_result};

use crate::{VrfCursor, VrfPacked, VrfRead};
use bitio::said::{Saying, said, stands_after};
use bitio::{Cursor, PackedNumber, Read, Refusal};

pub fn cursor_of(c: VrfCursor) -> Cursor
    ensures { result ≡ cursor_of_lem c }
{
    Cursor {
        start: c.start,
        pos: c.pos,
        len: c.len,
    }
}

fn read_value(value: u64, position: u64) -> VrfRead
    ensures { result ≡ read_value_lem value position }
{
    VrfRead {
        refusal: 0,
        first: 0,
        second: 0,
        third: 0,
        value,
        position,
    }
}

// What a refusal says, with the cursor at `position`.
pub fn read_refused(told: Saying, position: u64) -> VrfRead
    ensures { result ≡ refused_at told.number told.first told.second told.third position }
{
    VrfRead {
        refusal: told.number,
        first: told.first,
        second: told.second,
        third: told.third,
        value: 0,
        position,
    }
}

// What a refusal says, and where the cursor that stood at `at` stands after it.
fn refused(why: Refusal, at: u64) -> VrfRead
    ensures { result ≡ refused_read (numbered why) (stands_after_lem at why) }
{
    let told = said(why);
    let position = stands_after(why, at);
    read_refused(told, position)
}

// A number of any width.
pub fn read_of<T: Into<u64>>(a: Result<Read<T>, Refusal>, at: u64) -> VrfRead
    ensures { MatchResult a (λ x. NumberRead (T.converts x.value) x.next result) (λ r. result ≡ refused_read (numbered r) (stands_after_lem at r)) }
{
    match a {
        Ok(x) => read_value(x.value.into(), x.next),
        Err(r) => refused(r, at),
    }
}

fn packed_value(x: PackedNumber, position: u64) -> VrfPacked
    ensures { result ≡ packed_value_lem x position }
{
    let value = x.value as u64;
    VrfPacked {
        refusal: 0,
        first: 0,
        second: 0,
        third: 0,
        value,
        position,
        bytes: x.bytes,
        padded: x.padded,
    }
}

fn no_packed(unread: VrfRead) -> VrfPacked
    ensures { result ≡ no_packed_lem unread }
{
    VrfPacked {
        refusal: unread.refusal,
        first: unread.first,
        second: unread.second,
        third: unread.third,
        value: 0,
        position: unread.position,
        bytes: 0,
        padded: false,
    }
}

pub fn packed_of(a: Result<Read<PackedNumber>, Refusal>, at: u64) -> VrfPacked
    ensures { result ≡ packed_result at a }
{
    match a {
        Ok(x) => packed_value(x.value, x.next),
        Err(r) => no_packed(refused(r, at)),
    }
}

pub fn copy_of(a: Result<u64, Refusal>, at: u64) -> VrfRead
    ensures { result ≡ copy_result at a }
{
    match a {
        Ok(next) => read_value(0, next),
        Err(r) => refused(r, at),
    }
}
