//! Where a history begins.

ghost use Rattle.std.specs.Prelude.{◌≡◌};

use mg_base::{TxNo, TxState};
use mg_value::{Key, Name, Row};
use std::marker::Model;

/// The first number of a transaction that no database draws (chosen). A program may set its limit
/// lower.
pub const MOST_TRANSACTIONS: u32 = 1_000_000_000;

/// A row of a table.
#[derive(Debug, Drop)]
pub struct PlacedRow {
    pub table: Name,
    pub row: Row,
}

/// A change of a transaction in limbo: the row that the key comes to have, none for a deletion.
#[derive(Debug, Drop)]
pub struct LimboChange {
    pub by: TxNo,
    pub table: Name,
    pub key: Key,
    pub row: Option<Row>,
}

/// The rows of a database, each with its table's name.
#[derive(Debug, Drop)]
pub struct Placed {
    items: Vec<PlacedRow>,
}

impl Model for Placed {
    ghost use Rattle.std.specs.Prelude.{List};
    ghost use Rattle.mg_model.specs.declared.opening.PlacedRow.{PlacedRow};

    ghost Value = { List PlacedRow };

    ghost view = { λ placed. placed.items.items };
}

impl Placed {
    /// The list of these rows. It takes no memory.
    pub fn new(items: Vec<PlacedRow>) -> Placed
        ensures { result ≡ items.items }
    {
        Placed { items }
    }

    /// The rows, in their order.
    pub fn as_slice(&self) -> &[PlacedRow]
        ensures { result.now ≡ self.now }
    {
        &self.items
    }
}

/// The changes of the transactions in limbo.
#[derive(Debug, Drop)]
pub struct Changes {
    items: Vec<LimboChange>,
}

impl Model for Changes {
    ghost use Rattle.std.specs.Prelude.{List};
    ghost use Rattle.mg_model.specs.declared.opening.LimboChange.{LimboChange};

    ghost Value = { List LimboChange };

    ghost view = { λ changes. changes.items.items };
}

impl Changes {
    /// The list of these changes. It takes no memory.
    pub fn new(items: Vec<LimboChange>) -> Changes
        ensures { result ≡ items.items }
    {
        Changes { items }
    }

    /// The changes, in their order.
    pub fn as_slice(&self) -> &[LimboChange]
        ensures { result.now ≡ self.now }
    {
        &self.items
    }
}

/// The states of the transactions from number 1 on.
#[derive(Debug, Drop)]
pub struct States {
    items: Vec<TxState>,
}

impl Model for States {
    ghost use Rattle.std.specs.Prelude.{List};
    ghost use Rattle.mg_base.specs.declared.transaction.TxState.{TxState};

    ghost Value = { List TxState };

    ghost view = { λ states. states.items.items };
}

impl States {
    /// The list of these states. It takes no memory.
    pub fn new(items: Vec<TxState>) -> States
        ensures { result ≡ items.items }
    {
        States { items }
    }

    /// The states: that of number `n` stands at place `n - 1`.
    pub fn as_slice(&self) -> &[TxState]
        ensures { result.now ≡ self.now }
    {
        &self.items
    }
}

/// Where a history begins: a database, the transactions in limbo with their changes, what has
/// become of each transaction, the number that is drawn next, the number that can't be drawn, and a
/// number of pages that are free.
#[derive(Debug, Drop)]
pub struct Opening {
    /// The committed rows of all tables, the catalog's among them.
    pub rows: Placed,
    /// The changes of the transactions in limbo, none of which is in `rows`.
    pub limbo: Changes,
    /// One for each number from 1 to the one below `next`.
    pub states: States,
    /// The number that is drawn next, at least 1.
    pub next: TxNo,
    /// A transaction is refused where this is the next number: a property of the program.
    pub limit: TxNo,
    /// So many pages are free, at least. The machine counts no pages; a keeper of records that has
    /// some is told by this how many it was promised.
    pub free: u32,
}
