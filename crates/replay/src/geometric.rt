// What the kinds V, N, R and M share: floats as bit patterns, so that the two zeros are told apart, and refusals.
ghost use Rattle.std.specs.Prelude.{◌≡◌, ◌%◌, ◌^◌};
ghost use Rattle.geometry.specs.Refusals.{numbered, stands_after_lem};
ghost use Rattle.recorded.specs.Says.{Says};

use bitio::Read;
use geometry::said::{said, stands_after};
use geometry::{Refusal, Vector};
use recorded::answers;
use recorded::answers::Answer;
pub use words::double_bits;

pub fn single_bits(x: f32) -> u64 {
    u64::from(words::single_bits(x))
}

// What a refusal says, and where the cursor that stood at `at` stands after it (geometry's specs/Refusals).
pub fn refused(why: Refusal, at: u64) -> Answer
    ensures says { Says result (numbered why) }
    ensures stands { result.cursor ≡ stands_after_lem at why % 2 ^ 64 }
{
    let s = said(why);
    let cursor = stands_after(why, at);
    answers::told(s, cursor)
}

fn vector_answer(v: Vector, next: u64) -> Answer {
    let x = double_bits(v.x);
    let y = double_bits(v.y);
    let z = double_bits(v.z);
    answers::answer_of(0, x, y, z, next)
}

pub fn of_vector(read: Result<Read<Vector>, Refusal>, at: u64) -> Answer {
    match read {
        Ok(v) => vector_answer(v.value, v.next),
        Err(r) => refused(r, at),
    }
}
