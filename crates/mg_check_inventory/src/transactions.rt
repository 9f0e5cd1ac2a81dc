//! The transaction inventory of an image.

ghost use Rattle.std.specs.Prelude.{◌<◌, IfOk, IsErr, length};
ghost use Rattle.mg_findings.specs.Findings.{HasNone, IsListOf};
ghost use Rattle.mg_check_inventory.specs.ImagePages.{IsWholeImage};
ghost use Rattle.mg_check_inventory.specs.TransactionRung.{IsTransactionFinding};

use crate::pages::check_bit;
use crate::tips::check_tips;
use mg_base::{Bytes, Memory};
use mg_findings::{Finding, in_order, note};
use std::alloc::Global;

/// What is found in the transaction inventory of an image, of which these are the pages: that the
/// header page is not marked as used, and the first damage of the chain of transaction inventory
/// pages.
///
/// `size` is the page size in bytes. There is a header page; that its fields are lawful is asked by
/// the rung before.
///
/// # Errors
///
/// `Memory` only, and only where something is found.
pub fn transaction_findings(
    alloc: Global,
    size: u32,
    pages: &[Bytes],
) -> Result<Vec<Finding>, Memory>
    requires image { IsWholeImage size pages.now }
    requires some { 0 < length pages.now }
    ensures list { IfOk result (λ findings.
        IsListOf (IsTransactionFinding size pages.now) findings.items) }
    ensures cause { IsErr result → HasNone (IsTransactionFinding size pages.now) → ⊥ }
{
    let mut findings = Vec::new(alloc);
    note(&mut findings, check_bit(size, pages, 0))?;
    note(&mut findings, check_tips(size, pages))?;
    in_order(&mut findings);
    Ok(findings)
}
