//! The figures of several tables.

ghost use Rattle.std.specs.Prelude.{◌≤◌, IfOk, length};
ghost use Rattle.mg_check_inventory.specs.ImagePages.{IsWholeImage};
ghost use Rattle.mg_file_figures.specs.Tables.{AreToldAll};
ghost use Rattle.mg_model.specs.CatalogRules.{EachTable};

use crate::figures::TableFigures;
use crate::table::{OneTable, table_figures};
use mg_base::{Bytes, Memory};
use mg_findings::Finding;
use mg_model::Table;
use mg_value::MOST_COLUMNS;
use std::alloc::Global;

/// What is told of several tables.
#[derive(Drop)]
pub(crate) enum AllTables {
    /// What is found first, of the first table of which something is found.
    Found(Finding),
    Told(Vec<TableFigures>),
}

/// The figures of several tables of an image, of which these are the pages, or what is found first.
///
/// `size` is the page size in bytes, `holder` the page at which a link to a table's first page is told.
///
/// # Errors
///
/// `Memory` only.
pub(crate) fn tables_figures(
    alloc: Global,
    size: u32,
    pages: &[Bytes],
    holder: u32,
    tables: &[Table],
) -> Result<AllTables, Memory>
    requires image { IsWholeImage size pages.now }
    requires columns { EachTable (λ t. length t.shape.columns ≤ MOST_COLUMNS) tables.now }
    ensures { IfOk result (AreToldAll size pages.now holder tables.now) }
{
    let mut told = Vec::new(alloc);
    let mut rest = tables;
    while let Some((table, later)) = rest.split_first() {
        let figures = match table_figures(alloc, size, pages, holder, table)? {
            OneTable::Told(figures) => figures,
            OneTable::Found(finding) => return Ok(AllTables::Found(finding)),
        };
        told.push(figures)?;
        rest = later;
    }
    Ok(AllTables::Told(told))
}
