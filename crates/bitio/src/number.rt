// The types of number that have a width of their own: what so many bits give.
ghost use Rattle.std.specs.Prelude.{◌≡◌, ℕ, ◌^◌, ◌<◌, ◌≤◌, ◌==◌};
ghost use Rattle.std.proofs.Common.{rules};
ghost use Rattle.bits.specs.TwosComplement.{twos};

// A number of WIDTH bits, and which number the bits give.
pub trait Number: Copy {
    const WIDTH: u64;

    ghost WIDTH: { ℕ };

    ghost given: { ℕ → Self };

    fn of(bits: u64) -> Self
        requires { bits < 2 ^ WIDTH }
        ensures { result ≡ given bits };

    ghost narrow: { WIDTH ≤ 64 };
}

impl Number for bool {
    const WIDTH: u64 = 1;

    ghost WIDTH = { 1 };

    ghost given = { λ x. x == 1 };

    ghost narrow = { Prim.search rules };

    fn of(bits: u64) -> bool {
        bits == 1
    }
}

impl Number for u8 {
    const WIDTH: u64 = 8;

    ghost WIDTH = { 8 };

    ghost given = { λ x. x };

    ghost narrow = { Prim.search rules };

    fn of(bits: u64) -> u8 {
        bits as u8
    }
}

impl Number for u16 {
    const WIDTH: u64 = 16;

    ghost WIDTH = { 16 };

    ghost given = { λ x. x };

    ghost narrow = { Prim.search rules };

    fn of(bits: u64) -> u16 {
        bits as u16
    }
}

impl Number for u32 {
    const WIDTH: u64 = 32;

    ghost WIDTH = { 32 };

    ghost given = { λ x. x };

    ghost narrow = { Prim.search rules };

    fn of(bits: u64) -> u32 {
        bits as u32
    }
}

impl Number for u64 {
    const WIDTH: u64 = 64;

    ghost WIDTH = { 64 };

    ghost given = { λ x. x };

    ghost narrow = { Prim.search rules };

    fn of(bits: u64) -> u64 {
        bits
    }
}

impl Number for i32 {
    const WIDTH: u64 = 32;

    ghost WIDTH = { 32 };

    ghost given = { twos 32 };

    ghost narrow = { Prim.search rules };

    fn of(bits: u64) -> i32 {
        bits::integer::signed(bits, 32) as i32
    }
}
