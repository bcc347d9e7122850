// A piece of the root window: the bits before bit `end` of some bytes, whose first bit is bit `base` of the root window.
ghost use Rattle.std.specs.Prelude.{◌*◌, ◌≤◌, length};
ghost use Rattle.steps.specs.Steps.{InRoot};

// They lie in the bytes, and in a root window that is not too long.
#[derive(Clone, Copy)]
pub struct Piece<'a> {
    pub bytes: &'a [u8],
    pub base: u64,
    pub end: u64,
    pub ghost in_bytes: { end ≤ 8 * length bytes.now },
    pub ghost in_root: { InRoot base end },
}
