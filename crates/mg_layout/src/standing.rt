//! Where the catalog and the tables stand, as it is found.

use mg_model::Table;
use mg_reading::TablePages;
use mg_trees::Levels;

/// A table of an image, and where it stands.
#[derive(Drop)]
pub struct TableStand {
    pub table: Table,
    pub pages: TablePages,
    /// For each of its indexes the levels from the root down.
    pub trees: Vec<Levels>,
}

/// Where the catalog stands, and where the tables stand that it names, in the order of their names.
#[derive(Drop)]
pub struct Standing {
    pub catalog: TableStand,
    pub tables: Vec<TableStand>,
}
