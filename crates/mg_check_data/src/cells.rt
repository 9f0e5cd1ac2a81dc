//! The cells of a data page.

ghost use Rattle.std.specs.Prelude.{◌≡◌, ◌⊎◌, ◌<◌, ◌^◌, Some, MatchOption, IsErr, OnOk, false, length};
ghost use Rattle.mg_check_data.specs.DataRung.{HasCells, HasOne, IsCellFinding, IsSlotCell, IsSlotFinding, cell_finding as finding_of};
ghost use Rattle.mg_findings.specs.Findings.{Adds};
ghost use Rattle.mg_image.specs.Sound.{IsCellOf};
ghost use Rattle.mg_slots.specs.DataPage.{IsDataPage, cell_of};
ghost use Rattle.mg_version.specs.declared.cell.Cell.{Cell as ACell};
ghost use Rattle.mg_version.specs.Cells.{IsSpelling, RefusesCell};

use mg_base::{Field, Memory, PageNo};
use mg_findings::{Finding, Rule};
use mg_slots::{cell, slots};
use mg_version::{CellFault, read_cell};
use std::alloc::Global;

/// Where bytes stop being a cell, `None` exactly where they spell one. Memory is wanting only for
/// the row of a version, so then they spell one.
fn cell_end(alloc: Global, bytes: &[u8]) -> Option<u32>
    requires { length bytes.now < 2 ^ 31 }
    ensures { MatchOption result ((cell : ACell) × IsSpelling bytes.now cell)
        (λ at. RefusesCell bytes.now at) }
{
    match read_cell(alloc, bytes) {
        Ok(_) => None,
        Err(CellFault::BadCell { at }) => Some(at),
        Err(CellFault::Memory) => None,
    }
}

/// The finding of a slot's cell of this length, of which so much begins a cell.
fn cell_finding(n: u32, slot: u16, at: u32, len: usize) -> Finding
    requires { len < 2 ^ 31 }
    ensures { result ≡ finding_of n slot at len }
{
    Finding {
        page: PageNo(n),
        slot,
        what: Rule::Damage(Field::Cell),
        found: u64::from(at),
        wanted: if at as usize == len {
            len as u64 + 1
        } else {
            len as u64
        },
    }
}

/// Adds what is found of the bytes of a slot of a data page with this number.
///
/// # Errors
///
/// `Memory` only, and only where something is found.
fn note_bytes(
    alloc: Global,
    findings: &mut Vec<Finding>,
    page: &[u8],
    n: u32,
    slot: u16,
    bytes: &[u8],
) -> Result<(), Memory>
    requires there { cell_of page.now slot ≡ Some bytes.now }
    requires short { length bytes.now < 2 ^ 31 }
    ensures adds { OnOk result (Adds findings.old.items findings.new.items
        (IsSlotFinding page.now n slot)) }
    ensures cause { IsErr result → HasOne (IsSlotFinding page.now n slot) }
    ensures decided { HasOne (IsSlotFinding page.now n slot) ⊎ IsCellOf false bytes.now }
{
    match cell_end(alloc, bytes) {
        None => Ok(()),
        Some(at) => Ok(findings.push(cell_finding(n, slot, at, bytes.len()))?),
    }
}

/// Adds what is found of a slot of a data page with this number.
///
/// # Errors
///
/// `Memory` only, and only where something is found.
fn note_slot(
    alloc: Global,
    findings: &mut Vec<Finding>,
    page: &[u8],
    n: u32,
    slot: u16,
) -> Result<(), Memory>
    requires { IsDataPage page.now }
    ensures adds { OnOk result (Adds findings.old.items findings.new.items
        (IsSlotFinding page.now n slot)) }
    ensures cause { IsErr result → HasOne (IsSlotFinding page.now n slot) }
    ensures decided { HasOne (IsSlotFinding page.now n slot) ⊎ IsSlotCell page.now slot }
{
    match cell(page, slot) {
        None => Ok(()),
        Some(bytes) => note_bytes(alloc, findings, page, n, slot, bytes),
    }
}

/// Adds what is found of the cells of a data page with this number.
///
/// # Errors
///
/// `Memory` only, and only where something is found.
pub(crate) fn note_cells(
    alloc: Global,
    findings: &mut Vec<Finding>,
    page: &[u8],
    n: u32,
) -> Result<(), Memory>
    requires { IsDataPage page.now }
    ensures adds { OnOk result (Adds findings.old.items findings.new.items
        (IsCellFinding page.now n)) }
    ensures cause { IsErr result → HasOne (IsCellFinding page.now n) }
    ensures decided { HasOne (IsCellFinding page.now n) ⊎ HasCells page.now }
{
    for slot in 0..slots(page) {
        note_slot(alloc, findings, page, n, slot)?;
    }
    Ok(())
}
