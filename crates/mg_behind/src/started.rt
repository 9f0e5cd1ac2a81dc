//! Which start it was.

ghost use Rattle.std.specs.Prelude.{Option, None};
ghost use Rattle.mg_behind.specs.Origin.{Origin};

use std::marker::Brand;

/// Which start it was, as a type: the parts of one start have it as a parameter, so that whoever gets
/// them back, through an engine that knows a `Disk` alone, still has what belongs together.
///
/// Each call of a program picks it anew: it passes `Brand` to a function that is generic in it.
pub trait Started<D> {
    ghost origin: { Option (Origin D) };
}

impl<D> Started<D> for Brand {
    ghost origin = { None };
}
