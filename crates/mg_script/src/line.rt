//! What a line of a script asks for.

use mg_base::Bytes;

/// A session of a script: 0 to 15, in a script A to P.
#[derive(Clone, Copy, Debug, PartialEq, Eq)]
pub struct Session(pub u8);

/// How many sessions a script has.
pub const SESSIONS: u8 = 16;

/// The most steps that one line may ask of a held statement.
pub const MOST_STEPS: u32 = 1_000_000;

/// A line of a script.
#[derive(Debug, Drop)]
pub struct Line {
    /// Its place in the script, counted from 1 over all lines.
    pub number: u32,
    pub kind: LineKind,
}

/// What a line asks for.
#[derive(Debug, Drop)]
pub enum LineKind {
    /// `A: sql`: a statement of a session.
    Sql { session: Session, text: Bytes },
    /// `A~ sql`: a statement that is begun and held. The text is a COMMIT, INSERT, UPDATE, DELETE or
    /// SELECT, or it is no statement, and then its fault is what is answered.
    Held { session: Session, text: Bytes },
    /// `@step A n`: so many steps of the statement that a session holds.
    Step { session: Session, most: u32 },
    /// `@go A`: the statement that a session holds goes on to its end.
    Go { session: Session },
    /// `@write n`: so many dirty pages are written, fewer where there are fewer.
    Write { most: u32 },
    /// `@collect`: the garbage of all committed tables is collected.
    Collect,
    /// `@sweep n`: so many steps of a sweep.
    Sweep { most: u32 },
    /// `@prepare A`: the first half of a commit in two phases.
    Prepare { session: Session },
    /// `@put key value`: a transaction of its own that gives the key the value, and commits.
    Put { key: i64, value: i64 },
    /// `@get key`: a transaction of its own that reads the key's value, and commits.
    Get { key: i64 },
    /// An empty line or a comment, which prints nothing.
    Silent,
    /// Anything else.
    Bad,
}
