//! Why an image is refused: the rule of a sound image that it breaks first.

ghost use Rattle.std.specs.Prelude.{◌≡◌};
ghost use Rattle.mg_reading.specs.declared.point.ReadFault.TheVariants as faults;

use mg_base::Memory;
use std::alloc::{AllocError, AllocFailed};
use std::fmt;

/// A rule of a sound image, in the order in which they are tested.
#[derive(Clone, Copy, Debug, PartialEq, Eq)]
pub enum Rule {
    /// The header's fields are lawful.
    Header,
    /// Each drawn transaction has its bits, and no other has become anything.
    Transactions,
    /// Each reached page and each cell of it is as wanted, and the catalog's rows are lawful: they
    /// name tables that fit the pages, and no transaction in limbo changes a table.
    Pages,
    /// No page is reached twice.
    Once,
    /// Each link meets a version of the transaction that it names, on a data page of its table and
    /// with a row of the table, and no cell is met twice.
    Links,
    /// Each version's transaction is drawn, and not below the oldest interesting one where it is
    /// dead; no transaction in limbo is below the oldest active one; and a table that no committed
    /// row of the catalog names has versions of those alone who have made it.
    Drawn,
    /// Each back version is committed.
    Backs,
    /// A record has one key, and no key is taken twice.
    Keys,
    /// Each row is found in the indexes of its table.
    Indexed,
}

/// Why nothing is read of an image.
#[derive(Clone, Copy, Debug, PartialEq, Eq)]
pub enum ReadFault {
    /// A rule is broken.
    Broken(Rule),
    Memory,
}

impl Rule {
    /// What is printed of it.
    fn text(self) -> &'static str {
        match self {
            Rule::Header => "HEADER",
            Rule::Transactions => "TRANSACTIONS",
            Rule::Pages => "PAGES",
            Rule::Once => "ONCE",
            Rule::Links => "LINKS",
            Rule::Drawn => "DRAWN",
            Rule::Backs => "BACKS",
            Rule::Keys => "KEYS",
            Rule::Indexed => "INDEXED",
        }
    }
}

impl fmt::Display for Rule {
    fn fmt<W: fmt::Write>(&self, f: &mut fmt::Formatter<W>) -> fmt::Result {
        f.write_str(self.text())
    }
}

impl From<Memory> for ReadFault {
    ghost from_gives = { λ _ fault. fault ≡ faults.Memory };

    fn from(_: Memory) -> ReadFault {
        ReadFault::Memory
    }
}

impl From<AllocError> for ReadFault {
    ghost from_gives = { λ _ fault. fault ≡ faults.Memory };

    fn from(_: AllocError) -> ReadFault {
        ReadFault::Memory
    }
}

impl<T: Drop> From<AllocFailed<T>> for ReadFault {
    ghost from_gives = { λ _ fault. fault ≡ faults.Memory };

    fn from(_: AllocFailed<T>) -> ReadFault {
        ReadFault::Memory
    }
}
