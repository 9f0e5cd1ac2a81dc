//! The figures of a file, or what is found in it first.

ghost use Rattle.std.specs.Prelude.{◌≡◌, ◌<◌, IfOk, length};
ghost use Rattle.mg_base.specs.Image.{page_at};
ghost use Rattle.mg_check_catalog.specs.CatalogRung.{HasRungs, IsRungFinding, first_of as first_page};
ghost use Rattle.mg_check_inventory.specs.ImagePages.{IsWholeImage};
ghost use Rattle.mg_file_figures.specs.CatalogRows.{ShowsRows};
ghost use Rattle.mg_file_figures.specs.Stating.{FindsDamage, IsStated, NamesTables, row_finding};
ghost use Rattle.mg_findings.specs.Findings.{HasNone};

use crate::catalog::catalog_table;
use crate::catalog_rows::{CatalogRows, catalog_rows};
use crate::figures::FileFigures;
use crate::table::first_of;
use crate::tables::{AllTables, tables_figures};
use mg_base::{Bytes, Field, Memory, PageNo};
use mg_catalog::{CatFault, tables_of};
use mg_check_catalog::{first_pointer, rung_findings};
use mg_check_tables::data_pages_of;
use mg_findings::{Finding, Rule};
use mg_limbo_list::{Tips, check_header, limbo_of};
use mg_model::Table;
use mg_stat::figures_of;
use mg_value::Row;
use std::alloc::Global;

/// What is told of a file.
#[derive(Drop)]
pub enum Stated {
    /// What is found in it first.
    Found(Finding),
    Told(FileFigures),
}

/// The finding of a row of the catalog that is not lawful.
fn bad_row(first: u32, at: usize, count: usize) -> Finding
    ensures { result ≡ row_finding first at count }
{
    Finding {
        page: PageNo(first),
        slot: 0,
        what: Rule::Damage(Field::Catalog),
        found: at as u64,
        wanted: count as u64,
    }
}

/// The figures of a file whose catalog names these tables, or what is found in them first.
fn state_tables(
    alloc: Global,
    size: u32,
    pages: &[Bytes],
    first: u32,
    tables: &[Table],
) -> Result<Stated, Memory>
    requires image { IsWholeImage size pages.now }
    requires some { 0 < length pages.now }
    requires first { first ≡ first_page (page_at size pages.now) }
    requires names { NamesTables size pages.now tables.now }
    ensures stated { IfOk result (IsStated size pages.now) }
    ensures damage { IfOk result FindsDamage }
{
    let told = match tables_figures(alloc, size, pages, first, tables)? {
        AllTables::Told(told) => told,
        AllTables::Found(finding) => return Ok(Stated::Found(finding)),
    };
    let file = figures_of(size, pages);
    let limbo = limbo_of(alloc, size, pages)?;
    Ok(Stated::Told(FileFigures {
        file,
        tables: told,
        limbo,
    }))
}

/// The figures of a file whose catalog shows these rows, or what is found first, of these rows or in the tables that they
/// name.
fn state_rows(
    alloc: Global,
    size: u32,
    pages: &[Bytes],
    first: u32,
    rows: &[Row],
) -> Result<Stated, Memory>
    requires image { IsWholeImage size pages.now }
    requires some { 0 < length pages.now }
    requires first { first ≡ first_page (page_at size pages.now) }
    requires none { HasNone (IsRungFinding size pages.now) }
    requires shows { ShowsRows size (page_at size pages.now) rows.now }
    ensures stated { IfOk result (IsStated size pages.now) }
    ensures damage { IfOk result FindsDamage }
{
    match tables_of(alloc, rows) {
        Ok(tables) => state_tables(alloc, size, pages, first, tables.as_slice()),
        Err(CatFault::BadTable { at }) => Ok(Stated::Found(bad_row(first, at, rows.len()))),
        Err(CatFault::Memory) => Err(Memory),
    }
}

/// The figures of a file where nothing is found of the header, the inventories and the pages of the catalog; or what is
/// found first behind these.
fn state_catalog(alloc: Global, size: u32, pages: &[Bytes]) -> Result<Stated, Memory>
    requires image { IsWholeImage size pages.now }
    requires some { 0 < length pages.now }
    requires none { HasNone (IsRungFinding size pages.now) }
    requires rungs { HasRungs size (page_at size pages.now) }
    ensures stated { IfOk result (IsStated size pages.now) }
    ensures damage { IfOk result FindsDamage }
{
    let first = first_pointer(size, pages);
    let table = catalog_table(alloc, first)?;
    let data_pages = data_pages_of(alloc, size, pages, 0, first)?;
    let tips = Tips::new(alloc, size, pages)?;
    let numbers = data_pages.as_slice();
    let rows = match catalog_rows(alloc, size, pages, &tips, &table, numbers)? {
        CatalogRows::Shown(rows) => rows,
        CatalogRows::Found(finding) => return Ok(Stated::Found(finding)),
    };
    state_rows(alloc, size, pages, first, rows.as_slice())
}

/// The figures of a file, of which these are the pages, or what is found in it first.
///
/// `size` is the page size in bytes. A page past the end is blank.
///
/// # Errors
///
/// `Memory` only.
pub fn state_file(alloc: Global, size: u32, pages: &[Bytes]) -> Result<Stated, Memory>
    requires { IsWholeImage size pages.now }
    ensures stated { IfOk result (IsStated size pages.now) }
    ensures damage { IfOk result FindsDamage }
{
    let findings = rung_findings(alloc, size, pages)?;
    if let Some(finding) = first_of(findings.as_slice()) {
        return Ok(Stated::Found(finding));
    }
    match check_header(size, pages) {
        Ok(()) => state_catalog(alloc, size, pages),
        Err(_) => unreachable!(),
    }
}
