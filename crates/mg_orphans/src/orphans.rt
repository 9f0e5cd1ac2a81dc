//! The list of orphan pages.

ghost use Rattle.std.specs.Prelude.{get_or, ◌≡◌, ◌↔◌, ◌<◌, IfOk, IsErr, IsTrue, OnOk, false};
ghost use Rattle.mg_base.specs.Image.{page_at};
ghost use Rattle.mg_base.specs.declared.geometry.TheConstants.{GREATEST_LIMIT};
ghost use Rattle.mg_check_inventory.specs.ImagePages.{IsWholeImage};
ghost use Rattle.mg_findings.specs.Findings.{Adds, HasNone, IsListOf};
ghost use Rattle.mg_orphans.specs.Orphans.{IsOrphanFinding, IsPageFinding, IsUnreached, orphan_finding};

use mg_base::{Bytes, GREATEST_LIMIT, Memory, PageNo};
use mg_check_inventory::check_bit;
use mg_findings::{Finding, Rule, in_order};
use std::alloc::Global;

/// Whether a page is one of those that are reached.
fn is_reached(reached: &[bool], n: u32) -> bool
    ensures { result ≡ get_or reached.now n false }
{
    reached.get(n as usize).copied().unwrap_or(false)
}

/// Whether a page is marked as used and none of those that are reached.
fn is_orphan(size: u32, pages: &[Bytes], reached: &[bool], n: u32) -> bool
    requires image { IsWholeImage size pages.now }
    requires below { n < GREATEST_LIMIT }
    ensures { IsTrue result ↔ IsUnreached size (page_at size pages.now) reached.now n }
{
    if is_reached(reached, n) {
        return false;
    }
    match check_bit(size, pages, n) {
        Ok(()) => true,
        Err(_) => false,
    }
}

/// The finding of an orphan page.
fn finding_of(n: u32) -> Finding
    ensures { result ≡ orphan_finding n }
{
    Finding {
        page: PageNo(n),
        slot: 0,
        what: Rule::Orphan,
        found: 0,
        wanted: 0,
    }
}

/// Adds what is told of a page, if it is an orphan.
///
/// # Errors
///
/// `Memory` only, and only where it is one. Then nothing was added.
fn note_orphan(
    findings: &mut Vec<Finding>,
    size: u32,
    pages: &[Bytes],
    reached: &[bool],
    n: u32,
) -> Result<(), Memory>
    requires image { IsWholeImage size pages.now }
    requires below { n < GREATEST_LIMIT }
    ensures adds { OnOk result (Adds findings.old.items findings.new.items
        (IsPageFinding size (page_at size pages.now) reached.now n)) }
    ensures cause { IsErr result → IsUnreached size (page_at size pages.now) reached.now n }
{
    if !is_orphan(size, pages, reached, n) {
        return Ok(());
    }
    Ok(findings.push(finding_of(n))?)
}

/// The orphan pages of an image, of which these are the pages, in the order of their numbers.
///
/// `size` is the page size in bytes. `reached` says of each page whether something reaches it, by
/// its number; a page past its end is not reached. A page past the end of the file is an orphan too,
/// where its bit is set.
///
/// # Errors
///
/// `Memory` only, and only where there is one.
pub fn orphan_findings(
    alloc: Global,
    size: u32,
    pages: &[Bytes],
    reached: &[bool],
) -> Result<Vec<Finding>, Memory>
    requires { IsWholeImage size pages.now }
    ensures list { IfOk result (λ findings.
        IsListOf (IsOrphanFinding size (page_at size pages.now) reached.now) findings.items) }
    ensures cause { IsErr result
        → HasNone (IsOrphanFinding size (page_at size pages.now) reached.now) → ⊥ }
{
    let mut findings = Vec::new(alloc);
    for n in 0..GREATEST_LIMIT {
        note_orphan(&mut findings, size, pages, reached, n)?;
    }
    in_order(&mut findings);
    Ok(findings)
}
