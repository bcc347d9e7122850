// Answers of the bit reader as the one struct that tests are given.
ghost use Rattle.std.specs.Prelude.{◌≡◌, MatchResult};
ghost use Rattle.probes.specs.Answers.{cursor_of_lem, value_given_lem, reader_given_lem, refusal_given, opened_gives_lem, measured_gives_lem, ended_gives_lem, skipped_gives_lem, sub_gives, bit_gives_lem, NumberGiven, i32_gives_lem};

use crate::{VrfProbe, VrfProbeCursor};
use bitio::said::{said, stands_after};
use bitio::{Cursor, Read, Refusal};

pub fn cursor_of(c: VrfProbeCursor) -> Cursor
    ensures { result ≡ cursor_of_lem c }
{
    Cursor {
        start: c.start,
        pos: c.pos,
        len: c.len,
    }
}

// A value, and where the cursor stands.
fn value_given(value: u64, signed: i32, truth: bool, position: u64) -> VrfProbe
    ensures { result ≡ value_given_lem value signed truth position }
{
    VrfProbe {
        refusal: 0,
        first: 0,
        second: 0,
        third: 0,
        value,
        signed,
        truth,
        position,
        reader: VrfProbeCursor {
            start: 0,
            pos: 0,
            len: 0,
        },
    }
}

pub fn reader_given(c: Cursor, position: u64) -> VrfProbe
    ensures { result ≡ reader_given_lem c position }
{
    VrfProbe {
        refusal: 0,
        first: 0,
        second: 0,
        third: 0,
        value: 0,
        signed: 0,
        truth: false,
        position,
        reader: VrfProbeCursor {
            start: c.start,
            pos: c.pos,
            len: c.len,
        },
    }
}

// What a refusal says, and where the cursor that stood at `at` stands after it.
fn refused(why: Refusal, at: u64) -> VrfProbe
    ensures { result ≡ refusal_given at why }
{
    let told = said(why);
    let position = stands_after(why, at);
    VrfProbe {
        refusal: told.number,
        first: told.first,
        second: told.second,
        third: told.third,
        value: 0,
        signed: 0,
        truth: false,
        position,
        reader: VrfProbeCursor {
            start: 0,
            pos: 0,
            len: 0,
        },
    }
}

// What was given, as `shown` has it, or what the refusal says.
fn gives<T, F: FnOnce(T) -> VrfProbe>(a: Result<T, Refusal>, at: u64, shown: F) -> VrfProbe
    requires { F.IsAlwaysCallable shown }
    ensures { MatchResult a (λ x. F.post shown x result) (λ r. result ≡ refusal_given at r) }
{
    match a {
        Ok(x) => shown(x),
        Err(r) => refused(r, at),
    }
}

pub fn opened_gives(a: Result<Cursor, Refusal>) -> VrfProbe
    ensures { result ≡ opened_gives_lem a }
{
    gives(a, 0, |c| reader_given(c, 0))
}

pub fn measured_gives(a: Result<u64, Refusal>, at: u64) -> VrfProbe
    ensures { result ≡ measured_gives_lem at a }
{
    gives(a, at, |x| value_given(x, 0, false, at))
}

pub fn ended_gives(a: Result<bool, Refusal>, at: u64) -> VrfProbe
    ensures { result ≡ ended_gives_lem at a }
{
    gives(a, at, |b| value_given(0, 0, b, at))
}

pub fn skipped_gives(a: Result<u64, Refusal>, at: u64) -> VrfProbe
    ensures { result ≡ skipped_gives_lem at a }
{
    gives(a, at, |next| value_given(0, 0, false, next))
}

pub fn sub_gives(a: Result<Read<Cursor>, Refusal>, at: u64) -> VrfProbe
    ensures { result ≡ sub_gives at a }
{
    gives(a, at, |x| reader_given(x.value, x.next))
}

pub fn bit_gives(a: Result<Read<bool>, Refusal>, at: u64) -> VrfProbe
    ensures { result ≡ bit_gives_lem at a }
{
    gives(a, at, |x| value_given(0, 0, x.value, x.next))
}

pub fn i32_gives(a: Result<Read<i32>, Refusal>, at: u64) -> VrfProbe
    ensures { result ≡ i32_gives_lem at a }
{
    gives(a, at, |x| value_given(0, x.value, false, x.next))
}

// A number of any width.
pub fn number_gives<T: Into<u64>>(a: Result<Read<T>, Refusal>, at: u64) -> VrfProbe
    ensures { MatchResult a (λ x. NumberGiven (T.converts x.value) x.next result) (λ r. result ≡ refusal_given at r) }
{
    match a {
        Ok(x) => value_given(x.value.into(), 0, false, x.next),
        Err(r) => refused(r, at),
    }
}
