//! How a damaged page is named: the field that differs, with what was found and what was wanted.

use crate::PageNo;
use std::fmt;

/// A field of a page, or a rule over pages, that a test names when it fails. `Display` gives the
/// printed word.
#[derive(Clone, Copy, Debug, PartialEq, Eq)]
pub enum Field {
    /// The page is not there. Found is the number of pages.
    Presence,
    Kind,
    Flags,
    Zero,
    /// The page's own number.
    Own,
    Owner,
    Sequence,
    Magic,
    Major,
    Minor,
    PageSize,
    Next,
    Oit,
    Oat,
    Ost,
    /// A page number that leads elsewhere than it should.
    Link,
    Count,
    Offset,
    Cell,
    Row,
    Run,
    /// A pointer to a version meets the version of another transaction, or none.
    Target,
    /// The entries of an index page are out of order.
    Entry,
    Catalog,
    /// A reached page whose bit in the page inventory is 0.
    Bit,
    /// A row without its entry in an index.
    Indexed,
    Fence,
    State,
    /// Two records with one key, or two keys in one record.
    Key,
    Level,
    Format,
}

/// The first field of a page that differs.
#[derive(Clone, Copy, Debug, PartialEq, Eq)]
pub struct Damaged {
    /// The number that the page was read under.
    pub page: PageNo,
    /// The field that differs.
    pub field: Field,
    /// What the field has.
    pub found: u64,
    /// What it should have.
    pub wanted: u64,
}

impl Field {
    /// The word that is printed for the field.
    pub fn word(self) -> &'static str {
        match self {
            Field::Presence => "PRESENCE",
            Field::Kind => "KIND",
            Field::Flags => "FLAGS",
            Field::Zero => "ZERO",
            Field::Own => "OWN",
            Field::Owner => "OWNER",
            Field::Sequence => "SEQUENCE",
            Field::Magic => "MAGIC",
            Field::Major => "MAJOR",
            Field::Minor => "MINOR",
            Field::PageSize => "PAGE SIZE",
            Field::Next => "NEXT",
            Field::Oit => "OIT",
            Field::Oat => "OAT",
            Field::Ost => "OST",
            Field::Link => "LINK",
            Field::Count => "COUNT",
            Field::Offset => "OFFSET",
            Field::Cell => "CELL",
            Field::Row => "ROW",
            Field::Run => "RUN",
            Field::Target => "TARGET",
            Field::Entry => "ENTRY",
            Field::Catalog => "CATALOG",
            Field::Bit => "BIT",
            Field::Indexed => "INDEXED",
            Field::Fence => "FENCE",
            Field::State => "STATE",
            Field::Key => "KEY",
            Field::Level => "LEVEL",
            Field::Format => "FORMAT",
        }
    }
}

impl fmt::Display for Field {
    fn fmt<W: fmt::Write>(&self, f: &mut fmt::Formatter<W>) -> fmt::Result {
        f.write_str(self.word())
    }
}

impl fmt::Display for Damaged {
    fn fmt<W: fmt::Write>(&self, f: &mut fmt::Formatter<W>) -> fmt::Result {
        let page = self.page.0;
        let word = self.field.word();
        let found = self.found;
        let wanted = self.wanted;
        write!(
            f,
            "DAMAGED PAGE {page} {word} FOUND {found} WANTED {wanted}"
        )
    }
}
