//! The cells of data pages whose cells were tested.

ghost use Rattle.std.specs.Prelude.{◌≡◌, ◌<◌, ◌^◌, IfOk, length, false};
ghost use Rattle.mg_check_data.specs.DataRung.{HasCells};
ghost use Rattle.mg_image.specs.Records.{cell_spelled, slot_cell as slot_cell_of};
ghost use Rattle.mg_image.specs.Sound.{IsCellOf};
ghost use Rattle.mg_slots.specs.DataPage.{IsDataPage, cell_of};

use mg_base::Memory;
use mg_version::{Cell, CellFault, read_cell};
use std::alloc::Global;

/// The cell that bytes spell.
///
/// # Errors
///
/// `Memory` only.
fn spelled_cell(alloc: Global, bytes: &[u8]) -> Result<Cell, Memory>
    requires short { length bytes.now < 2 ^ 31 }
    requires cell { IsCellOf false bytes.now }
    ensures { IfOk result (λ cell. cell ≡ cell_spelled bytes.now) }
{
    match read_cell(alloc, bytes) {
        Ok(cell) => Ok(cell),
        Err(CellFault::Memory) => Err(Memory),
        Err(CellFault::BadCell { .. }) => unreachable!(),
    }
}

/// The cell of a slot of a data page, if it has one.
///
/// # Errors
///
/// `Memory` only.
pub(crate) fn slot_cell(alloc: Global, page: &[u8], slot: u16) -> Result<Option<Cell>, Memory>
    requires lawful { IsDataPage page.now }
    requires cells { HasCells page.now }
    ensures { IfOk result (λ cell. cell ≡ slot_cell_of (cell_of page.now slot)) }
{
    match mg_slots::cell(page, slot) {
        None => Ok(None),
        Some(bytes) => Ok(Some(spelled_cell(alloc, bytes)?)),
    }
}
