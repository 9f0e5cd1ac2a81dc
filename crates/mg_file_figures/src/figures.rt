//! What is told of a file.

use mg_base::TxNo;
use mg_stat::Figures;
use mg_value::Name;

/// What is told of a table.
#[derive(Clone, Copy)]
pub struct TableFigures {
    pub name: Name,
    /// How many primary slots its data pages have.
    pub records: u64,
    /// How many cells of versions are reached from them.
    pub versions: u64,
    /// How many data pages it has.
    pub pages: u64,
}

/// What is told of a file.
#[derive(Drop)]
pub struct FileFigures {
    /// The file as a whole.
    pub file: Figures,
    /// The committed tables, in the order of their names.
    pub tables: Vec<TableFigures>,
    /// The transactions in limbo, ascending.
    pub limbo: Vec<TxNo>,
}
