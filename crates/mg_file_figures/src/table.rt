//! The figures of a table.

ghost use Rattle.std.specs.Prelude.{◌≡◌, ◌⊎◌, ◌≤◌, ◌∷◌, IfOk, List, MatchOption, [], false, length};
ghost use Rattle.mg_base.specs.Image.{page_at};
ghost use Rattle.mg_check_data.specs.DataRung.{HasOne};
ghost use Rattle.mg_check_inventory.specs.ImagePages.{IsWholeImage};
ghost use Rattle.mg_check_tables.specs.Seats.{AreDataPages};
ghost use Rattle.mg_check_tables.specs.TableRung.{HasTable};
ghost use Rattle.mg_file_figures.specs.Tables.{IsPagesFinding, IsToldOne};
ghost use Rattle.mg_findings.specs.declared.finding.Finding.{Finding as AFinding};
ghost use Rattle.mg_findings.specs.Findings.{HasNone, IsListOf};
ghost use Rattle.mg_image.specs.Sound.{IsTableData};
ghost use Rattle.mg_image.specs.Tables.{EachFrom};

use crate::figures::TableFigures;
use mg_base::{Bytes, Memory};
use mg_check_records::{records_of, walk_table};
use mg_check_tables::{data_pages_of, note_table};
use mg_findings::{Finding, in_order};
use mg_model::Table;
use mg_value::MOST_COLUMNS;
use std::alloc::Global;

/// What is told of a table.
#[derive(Clone, Copy)]
pub(crate) enum OneTable {
    /// What is found of it first.
    Found(Finding),
    Told(TableFigures),
}

/// The first of several findings, if there is one.
pub(crate) fn first_of(findings: &[Finding]) -> Option<Finding>
    ensures { MatchOption result (findings.now ≡ [])
        (λ first. (rest : List AFinding) × (findings.now ≡ first ∷ rest)) }
{
    match findings.split_first() {
        None => None,
        Some((first, _)) => Some(*first),
    }
}

/// What is found in the pages of a table, as a list.
fn pages_findings(
    alloc: Global,
    size: u32,
    pages: &[Bytes],
    holder: u32,
    table: &Table,
) -> Result<Vec<Finding>, Memory>
    requires { IsWholeImage size pages.now }
    ensures list { IfOk result (λ findings.
        IsListOf (IsPagesFinding size pages.now holder table.now) findings.items) }
    ensures decided { HasOne (IsPagesFinding size pages.now holder table.now)
        ⊎ HasTable size (page_at size pages.now) table.now.pointer.0 }
{
    let mut findings = Vec::new(alloc);
    note_table(alloc, &mut findings, size, pages, holder, table.pointer.0)?;
    in_order(&mut findings);
    Ok(findings)
}

/// The figures of a table in the pages of which nothing is found, with these data pages.
fn counted(
    alloc: Global,
    size: u32,
    pages: &[Bytes],
    holder: u32,
    table: &Table,
    data_pages: &[u32],
) -> Result<OneTable, Memory>
    requires image { IsWholeImage size pages.now }
    requires columns { length table.now.shape.columns ≤ MOST_COLUMNS }
    requires none { HasNone (IsPagesFinding size pages.now holder table.now) }
    requires are { AreDataPages (page_at size pages.now) table.now.pointer.0 data_pages.now }
    requires tested { EachFrom (IsTableData false size (page_at size pages.now)
        table.now.pointer.0) 0 data_pages.now }
    ensures { IfOk result (IsToldOne size pages.now holder table.now) }
{
    let walk = walk_table(alloc, size, pages, table, data_pages)?;
    let found = walk.found.as_slice();
    if let Some(finding) = first_of(found) {
        return Ok(OneTable::Found(finding));
    }
    let records = records_of(alloc, size, pages, table.pointer.0, data_pages)?;
    let listed = records.as_slice();
    let record_count = listed.len();
    let version_count = walk.marks.count();
    let page_count = data_pages.len();
    Ok(OneTable::Told(TableFigures {
        name: table.name,
        records: record_count as u64,
        versions: version_count as u64,
        pages: page_count as u64,
    }))
}

/// The figures of a table of an image, of which these are the pages, or what is found of it first.
///
/// `size` is the page size in bytes, `holder` the page at which a link to the table's first page is told.
///
/// # Errors
///
/// `Memory` only.
pub(crate) fn table_figures(
    alloc: Global,
    size: u32,
    pages: &[Bytes],
    holder: u32,
    table: &Table,
) -> Result<OneTable, Memory>
    requires image { IsWholeImage size pages.now }
    requires columns { length table.now.shape.columns ≤ MOST_COLUMNS }
    ensures { IfOk result (IsToldOne size pages.now holder table.now) }
{
    let findings = pages_findings(alloc, size, pages, holder, table)?;
    let found = findings.as_slice();
    if let Some(finding) = first_of(found) {
        return Ok(OneTable::Found(finding));
    }
    let data_pages = data_pages_of(alloc, size, pages, holder, table.pointer.0)?;
    let placed = data_pages.as_slice();
    counted(alloc, size, pages, holder, table, placed)
}
