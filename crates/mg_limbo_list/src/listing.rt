//! The list of the transactions in limbo.

ghost use Rattle.std.specs.Prelude.{◌≡◌, IfOk, IsErr, List, MatchOption, OnOk, [], ◌∷◌};
ghost use Rattle.mg_base.specs.Image.{page_at};
ghost use Rattle.mg_check_inventory.specs.ImagePages.{IsWholeImage};
ghost use Rattle.mg_findings.specs.declared.finding.Finding.{Finding as AFinding};
ghost use Rattle.mg_image.specs.Inventory.{state_at};
ghost use Rattle.mg_limbo_list.specs.Limbo.{IsListed, IsLimboList, with_limbo};

use crate::header::check_header;
use crate::tips::Tips;
use mg_base::{Bytes, Memory, TxNo, TxState};
use mg_check_inventory::transaction_findings;
use mg_findings::Finding;
use std::alloc::Global;

/// What an image tells of the transactions in limbo.
#[derive(Drop)]
pub enum Listed {
    /// The least finding of the rungs that the list stands on.
    Damaged(Finding),
    /// Where nothing is found on them: the transactions in limbo, ascending.
    Limbo(Vec<TxNo>),
}

/// Adds a transaction, if it is in limbo.
///
/// # Errors
///
/// `Memory` only, and only where it is in limbo.
fn note_limbo(list: &mut Vec<TxNo>, t: u32, state: TxState) -> Result<(), Memory>
    ensures adds { OnOk result (list.new.items ≡ with_limbo list.old.items t state) }
    ensures cause { IsErr result → state ≡ TxState.Limbo }
{
    if state == TxState::Limbo {
        list.push(TxNo(t))?;
    }
    Ok(())
}

/// The transactions in limbo of an image, of which these are the pages. Nothing is tested, and an absent page reads
/// as zeros.
///
/// `size` is the page size in bytes.
///
/// # Errors
///
/// `Memory` only.
pub fn limbo_of(alloc: Global, size: u32, pages: &[Bytes]) -> Result<Vec<TxNo>, Memory>
    requires { IsWholeImage size pages.now }
    ensures { IfOk result (λ list. IsLimboList (state_at size (page_at size pages.now)) list.items) }
{
    let tips = Tips::new(alloc, size, pages)?;
    let mut list = Vec::new(alloc);
    for t in 1..tips.next {
        note_limbo(&mut list, t, tips.state(pages, t))?;
    }
    Ok(list)
}

/// The first of several findings, if there is one.
fn first_of(findings: &[Finding]) -> Option<Finding>
    ensures { MatchOption result (findings.now ≡ [])
        (λ first. (rest : List AFinding) × (findings.now ≡ first ∷ rest)) }
{
    match findings.split_first() {
        None => None,
        Some((first, _)) => Some(*first),
    }
}

/// The transactions in limbo of an image, of which these are the pages; or, where something is found of its header
/// or, behind a lawful one, of its transaction inventory, the least of these findings.
///
/// `size` is the page size in bytes.
///
/// # Errors
///
/// `Memory` only.
pub fn list_limbo(alloc: Global, size: u32, pages: &[Bytes]) -> Result<Listed, Memory>
    requires { IsWholeImage size pages.now }
    ensures { IfOk result (IsListed size pages.now) }
{
    if let Err(damage) = check_header(size, pages) {
        return Ok(Listed::Damaged(Finding::of(damage)));
    }
    let findings = transaction_findings(alloc, size, pages)?;
    if let Some(finding) = first_of(&findings) {
        return Ok(Listed::Damaged(finding));
    }
    Ok(Listed::Limbo(limbo_of(alloc, size, pages)?))
}
