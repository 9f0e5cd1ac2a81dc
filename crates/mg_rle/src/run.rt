//! The sizes of runs, and three equal bytes, which a repeat stands for.

ghost use Rattle.std.specs.Prelude.{◌↔◌, IsTrue, ◌≤◌, ◌<◌, ◌+◌, ℕ, length};
ghost use Rattle.mg_rle.specs.Runs.{TripleAt};

/// A literal has at most this many bytes.
pub const MOST_LITERAL: usize = 127;

/// A repeat stands for at least this many bytes.
pub const LEAST_REPEAT: usize = 3;

/// A repeat stands for at most this many bytes.
pub const MOST_REPEAT: usize = 128;

// The numbers of the file format, written once more: a slip in one of them is refused.
const _: () = prove!(MOST_LITERAL == 127);

const _: () = prove!(LEAST_REPEAT == 3);

const _: () = prove!(MOST_REPEAT == 128);

/// Tells whether three equal bytes begin at the place `at`.
pub(crate) fn triple_begins(bytes: &[u8], at: usize) -> bool
    requires { at < length bytes.now }
    ensures { IsTrue result ↔ TripleAt bytes.now at }
{
    let rest = bytes.len() - at;
    rest >= LEAST_REPEAT && bytes[at + 1] == bytes[at] && bytes[at + 2] == bytes[at]
}
