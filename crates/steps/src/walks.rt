// What the walks differ in, but for what a field is.
ghost use Rattle.std.specs.Prelude.{◌≡◌};
ghost use Rattle.framing.specs.Sinks.{takes_trailer_lem, gives_leaves_lem};

use framing::Walk;

// Whether a walk takes the trailer behind an index terminator.
pub fn takes_trailer(walk: Walk) -> bool
    ensures { result ≡ takes_trailer_lem walk }
{
    match walk {
        Walk::Struct => true,
        Walk::Exact => false,
        Walk::Object => true,
    }
}

// Whether it gives leaves with paths, and keeps a tail as one; the object walk gives pairs.
pub fn gives_leaves(walk: Walk) -> bool
    ensures { result ≡ gives_leaves_lem walk }
{
    match walk {
        Walk::Struct => true,
        Walk::Exact => true,
        Walk::Object => false,
    }
}
