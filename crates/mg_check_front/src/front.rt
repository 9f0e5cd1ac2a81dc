//! What is found of the first three rungs.

ghost use Rattle.std.specs.Prelude.{◌≡◌, IfOk, IsErr, [], ◌∷◌};
ghost use Rattle.mg_check_inventory.specs.ImagePages.{IsWholeImage};
ghost use Rattle.mg_findings.specs.Findings.{HasNone, IsListOf, damage_finding};
ghost use Rattle.mg_check_front.specs.Front.{IsFirstFinding};

use mg_base::{Bytes, Damaged, Memory};
use mg_check_inventory::{inventory_findings, transaction_findings};
use mg_findings::Finding;
use mg_limbo_list::check_header;
use std::alloc::Global;

/// The list of one damage.
fn one_finding(alloc: Global, damage: Damaged) -> Result<Vec<Finding>, Memory>
    ensures { IfOk result (λ findings. findings.items ≡ damage_finding damage ∷ []) }
{
    let mut findings = Vec::new(alloc);
    findings.push(Finding::of(damage))?;
    Ok(findings)
}

/// What is found of an image, of which these are the pages, on the first of three rungs that has findings: the header,
/// the page inventory, the transaction inventory. Each finding stands once, and they ascend.
///
/// `size` is the page size in bytes. A page past the end is blank.
///
/// # Errors
///
/// `Memory` only, and only where something is found.
pub fn front_findings(alloc: Global, size: u32, pages: &[Bytes]) -> Result<Vec<Finding>, Memory>
    requires { IsWholeImage size pages.now }
    ensures list { IfOk result (λ findings. IsListOf (IsFirstFinding size pages.now) findings.items) }
    ensures cause { IsErr result → HasNone (IsFirstFinding size pages.now) → ⊥ }
{
    match check_header(size, pages) {
        Ok(()) => {}
        Err(damage) => return Ok(one_finding(alloc, damage)?),
    }
    let inventory = inventory_findings(alloc, size, pages)?;
    if inventory.len() > 0 {
        return Ok(inventory);
    }
    Ok(transaction_findings(alloc, size, pages)?)
}
