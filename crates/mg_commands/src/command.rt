//! What a command line asks for.

ghost use Rattle.std.specs.Prelude.{◌≡◌};

use mg_base::TxNo;

/// What the options of a command line ask for.
#[derive(Clone, Copy, Debug, PartialEq, Eq)]
pub struct Options {
    /// The page size of a new file, in bytes.
    pub page: Option<u32>,
    /// How many pages the file may have.
    pub limit: Option<u32>,
    /// How many page writes pass.
    pub stop: Option<u32>,
}

/// What `gfix` does with a file.
#[derive(Clone, Copy, Debug, PartialEq, Eq)]
pub enum Care {
    /// Tests it, and releases its orphan pages.
    Validate,
    /// Lists the transactions in limbo.
    ListLimbo,
    /// Decides that a transaction in limbo is committed.
    Commit(TxNo),
    /// Decides that a transaction in limbo is rolled back.
    Rollback(TxNo),
    /// Sweeps it.
    Sweep,
}

/// What a command line asks for. The file is the one that the path names, which is the third word.
#[derive(Clone, Copy, Debug, PartialEq, Eq)]
pub enum Command {
    /// Obeys a script.
    Run(Options),
    /// Obeys a script with one thread for each session.
    Storm {
        page: Option<u32>,
        limit: Option<u32>,
    },
    /// Makes a table and fills it with this many rows.
    Load {
        rows: u32,
        options: Options,
    },
    /// Prints the figures of a file.
    Stat,
    /// Looks after a file.
    Fix {
        care: Care,
        stop: Option<u32>,
    },
}
