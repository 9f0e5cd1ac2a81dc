//! The page inventory of an image.

ghost use Rattle.std.specs.Prelude.{◌≡◌, ◌↔◌, ◌<◌, IfOk, IsErr, IsTrue, length, replicate};
ghost use Rattle.mg_base.specs.Checks.{verdict};
ghost use Rattle.mg_base.specs.Image.{page_at};
ghost use Rattle.mg_base.specs.declared.geometry.TheConstants.{GREATEST_LIMIT};
ghost use Rattle.mg_findings.specs.Findings.{HasNone, IsListOf, Tells};
ghost use Rattle.mg_findings.specs.declared.finding.Finding.{Finding as AFinding};
ghost use Rattle.mg_image.specs.Inventory.{inventory_page};
ghost use Rattle.mg_check_inventory.specs.ImagePages.{IsWholeImage, numbered};
ghost use Rattle.mg_check_inventory.specs.InventoryRung.{IsInventoryFinding, IsRegionFinding, region_checks};

use crate::pages::{bits_of, check_bit, page_of};
use mg_base::{Bytes, Damaged, GREATEST_LIMIT, Memory, PageNo};
use mg_findings::{Finding, in_order, note};
use mg_pip::check_pip;
use std::alloc::Global;

/// Whether every byte is 0.
fn is_zero(page: &[u8]) -> bool
    ensures { IsTrue result ↔ (page.now ≡ replicate (length page.now) 0) }
{
    page.iter().all(|byte| *byte == 0)
}

/// Tests a page that is not blank as the page inventory page of a region: its fields, then its bit.
fn check_filled(size: u32, pages: &[Bytes], page: &[u8], n: u32, region: u32) -> Result<(), Damaged>
    requires image { IsWholeImage size pages.now }
    requires below { n < GREATEST_LIMIT }
    requires page { page.now ≡ page_at size pages.now n }
    ensures { result
        ≡ verdict (numbered n) (region_checks size (page_at size pages.now) n region) }
{
    check_pip(page, PageNo(n), region)?;
    check_bit(size, pages, n)
}

/// Tests the page inventory page of a region.
fn check_region(size: u32, pages: &[Bytes], region: u32) -> Result<(), Damaged>
    requires image { IsWholeImage size pages.now }
    requires below { inventory_page size region < GREATEST_LIMIT }
    ensures { (f : AFinding) → Tells result f
        ↔ IsRegionFinding size (page_at size pages.now) region f }
{
    let n = region * bits_of(size) + 1;
    match page_of(pages, n) {
        None => Ok(()),
        Some(page) => {
            if is_zero(page) {
                return Ok(());
            }
            check_filled(size, pages, page, n, region)
        }
    }
}

/// What is found in the page inventory of an image, of which these are the pages: for each region
/// whose page inventory page is not blank the first field of it that differs, its own bit last.
///
/// `size` is the page size in bytes. A page past the end is blank, and no page from the greatest
/// limit on is part of the image.
///
/// # Errors
///
/// `Memory` only, and only where something is found.
pub fn inventory_findings(alloc: Global, size: u32, pages: &[Bytes]) -> Result<Vec<Finding>, Memory>
    requires { IsWholeImage size pages.now }
    ensures list { IfOk result (λ findings.
        IsListOf (IsInventoryFinding size (page_at size pages.now)) findings.items) }
    ensures cause { IsErr result → HasNone (IsInventoryFinding size (page_at size pages.now)) → ⊥ }
{
    let mut findings = Vec::new(alloc);
    for region in 0..(GREATEST_LIMIT - 2) / bits_of(size) + 1 {
        note(&mut findings, check_region(size, pages, region))?;
    }
    in_order(&mut findings);
    Ok(findings)
}
