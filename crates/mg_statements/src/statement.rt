//! Statements.

use mg_expr::Expr;
use mg_value::{Kind, Name};

/// The greatest length of a text that a column may have.
pub const MOST_SIZE: u64 = 1000;

/// A statement. Its names and expressions are as the text has them: nothing is bound yet.
#[derive(Debug, Drop)]
pub enum Statement {
    SetTransaction {
        read_only: bool,
        /// Whether it waits for a transaction that is in its way, and is not refused at once.
        wait: bool,
        /// Whether it reads by one snapshot, and not by what is committed when a statement begins.
        snapshot: bool,
    },
    Commit,
    Rollback,
    RollbackTo {
        name: Name,
    },
    Savepoint {
        name: Name,
    },
    /// CREATE TABLE.
    Table {
        name: Name,
        columns: Vec<Def>,
    },
    /// `columns` is None where the text names none.
    Insert {
        table: Name,
        columns: Option<Vec<Name>>,
        values: Vec<Expr>,
    },
    Update {
        table: Name,
        sets: Vec<Assign>,
        filter: Option<Expr>,
    },
    Delete {
        table: Name,
        filter: Option<Expr>,
    },
    /// SELECT of totals: one row.
    Totals {
        table: Name,
        aggs: Vec<Agg>,
        filter: Option<Expr>,
    },
    /// `values` is None for `*`.
    Select {
        table: Name,
        values: Option<Vec<Expr>>,
        filter: Option<Expr>,
        sorted: Option<Sorted>,
    },
}

/// Lets a statement go. A function at whose end a statement would end hands it on to this one: the end is proved for each
/// kind of statement, at each place where it is written or implied, but once for all calls of `drop`.
pub fn let_go(statement: Statement) {
    drop(statement);
}

/// A column of a new table.
#[derive(Clone, Copy, Debug)]
pub struct Def {
    pub name: Name,
    pub kind: Kind,
    pub not_null: bool,
    /// Whether it is the primary key.
    pub key: bool,
}

/// A column, and what UPDATE sets it to.
#[derive(Debug, Drop)]
pub struct Assign {
    pub column: Name,
    pub value: Expr,
}

/// A total over the rows that a SELECT finds.
#[derive(Debug, Drop)]
pub enum Agg {
    Count,
    Sum(Expr),
}

/// The order of a SELECT's rows.
#[derive(Clone, Copy, Debug)]
pub struct Sorted {
    pub column: Name,
    pub descending: bool,
}
