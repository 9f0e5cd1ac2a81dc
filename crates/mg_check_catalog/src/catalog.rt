//! What is found of the first four rungs.

ghost use Rattle.std.specs.Prelude.{◌≡◌, ◌↔◌, ◌⊎◌, IfOk, IsErr, length};
ghost use Rattle.mg_base.specs.Image.{page_at};
ghost use Rattle.mg_check_catalog.specs.CatalogRung.{HasRungs, IsCatalogFinding, IsRungFinding, first_of};
ghost use Rattle.mg_check_data.specs.DataRung.{HasOne};
ghost use Rattle.mg_check_inventory.specs.ImagePages.{IsWholeImage};
ghost use Rattle.mg_check_tables.specs.TableRung.{HasTable};
ghost use Rattle.mg_findings.specs.Findings.{HasNone, IsListOf};

use mg_base::{Bytes, Memory, get_u32};
use mg_check_front::{front_findings, lawful_fronts_pass};
use mg_check_inventory::page_of;
use mg_check_tables::{lawful_tables_pass, note_table};
use mg_findings::{Finding, in_order};
use mg_header::CATALOG_AT;
use std::alloc::Global;

/// The first pointer page of the catalog, as the header names it; an image without pages names 0.
///
/// `size` is the page size in bytes.
pub fn first_pointer(size: u32, pages: &[Bytes]) -> u32
    requires { IsWholeImage size pages.now }
    ensures { result ≡ first_of (page_at size pages.now) }
{
    match page_of(pages, 0) {
        None => 0,
        Some(page) => get_u32(page, CATALOG_AT),
    }
}

/// What is found in the pages of the catalog.
///
/// # Errors
///
/// `Memory` only, and only where something is found.
fn catalog_findings(alloc: Global, size: u32, pages: &[Bytes]) -> Result<Vec<Finding>, Memory>
    requires { IsWholeImage size pages.now }
    ensures list { IfOk result (λ findings.
        IsListOf (IsCatalogFinding size pages.now) findings.items) }
    ensures cause { IsErr result → HasOne (IsCatalogFinding size pages.now) }
    ensures decided { HasOne (IsCatalogFinding size pages.now)
        ⊎ HasTable size (page_at size pages.now) (first_of (page_at size pages.now)) }
{
    let mut findings = Vec::new(alloc);
    let first = first_pointer(size, pages);
    note_table(alloc, &mut findings, size, pages, 0, first)?;
    in_order(&mut findings);
    Ok(findings)
}

/// What is found of an image, of which these are the pages, on the first of four rungs that has
/// findings: the header, the page inventory, the transaction inventory, the pages of the catalog.
/// Each finding stands once, and they ascend.
///
/// `size` is the page size in bytes. A page past the end is blank.
///
/// # Errors
///
/// `Memory` only, and only where something is found.
pub fn rung_findings(alloc: Global, size: u32, pages: &[Bytes]) -> Result<Vec<Finding>, Memory>
    requires { IsWholeImage size pages.now }
    ensures list { IfOk result (λ findings. IsListOf (IsRungFinding size pages.now) findings.items) }
    ensures cause { IsErr result → HasNone (IsRungFinding size pages.now) → ⊥ }
    ensures sound { HasNone (IsRungFinding size pages.now) ↔ HasRungs size (page_at size pages.now) }
{
    lawful_fronts_pass();
    lawful_tables_pass();
    let front = front_findings(alloc, size, pages)?;
    if front.len() > 0 {
        return Ok(front);
    }
    Ok(catalog_findings(alloc, size, pages)?)
}
