//! The status of the program.

/// The status of the program.
#[derive(Clone, Copy, Debug, PartialEq, Eq)]
pub struct Status(pub u8);

impl Status {
    /// Every line was obeyed, and each answered Ok.
    pub const OK: Status = Status(0);
    /// Every line was obeyed, and some did not answer Ok.
    pub const NOT_ALL_OK: Status = Status(1);
    /// The words are not a command line.
    pub const USAGE: Status = Status(2);
    /// The disk failed.
    pub const DISK: Status = Status(3);
    /// The disk holds no database, or a damaged one.
    pub const IMAGE: Status = Status(4);
    /// The source or the sink failed.
    pub const STREAM: Status = Status(5);
    /// Want of memory.
    pub const MEMORY: Status = Status(6);
    /// The script is too long.
    pub const LIMIT: Status = Status(7);
}
