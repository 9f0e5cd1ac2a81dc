//! A table as the catalog says it.

ghost use Rattle.std.specs.Prelude.{◌≡◌};

use mg_base::PageNo;
use mg_value::{Name, Shape};
use std::marker::Model;

/// The name of the catalog, a table like others, which no statement can name.
pub const CATALOG: &[u8] = b"MG$CATALOG";

/// An index of a table.
#[derive(Clone, Copy, Debug)]
pub struct Index {
    pub name: Name,
    /// The place of its column in the table's shape.
    pub column: u16,
    /// The page of its root, which is not page 0.
    pub root: PageNo,
}

/// A list of indexes.
#[derive(Debug, Drop)]
pub struct Indexes {
    items: Vec<Index>,
}

impl Model for Indexes {
    ghost use Rattle.std.specs.Prelude.{List};
    ghost use Rattle.mg_model.specs.declared.table.Index.{Index as AnyIndex};

    ghost Value = { List AnyIndex };

    ghost view = { λ indexes. indexes.items.items };
}

impl Indexes {
    /// The list of these indexes. It takes no memory.
    pub fn new(items: Vec<Index>) -> Indexes
        ensures { result ≡ items.items }
    {
        Indexes { items }
    }

    /// The indexes, in their order.
    pub fn as_slice(&self) -> &[Index]
        ensures { result.now ≡ self.now }
    {
        &self.items
    }
}

/// A table: its shape, its first pointer page, and its indexes, the primary one first where there
/// is one, then the others in the order of their names.
#[derive(Debug, Drop)]
pub struct Table {
    pub name: Name,
    pub shape: Shape,
    /// The first of its pointer pages.
    pub pointer: PageNo,
    pub indexes: Indexes,
}
