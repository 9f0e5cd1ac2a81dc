//! What is done to a data page, and what it then answers.

ghost use Rattle.mg_slots.specs.DataPage.{IsDataPage};

use mg_slots::{NoRoom, cell, free, put_cell, replace, room, slots};
use std::alloc::Global;
use std::process::Abort;
use std::test::Fail;

/// A call on a data page, and what it gives. A cell has so many equal bytes of a value.
#[derive(Clone, Copy)]
pub enum Deed {
    /// A cell is put into this slot.
    Put(u16, u8, u16),
    /// A cell that needs so many bytes, where there is room for so many.
    Refused(u16, u32, u32),
    /// The cell of a used slot is replaced.
    Replace(u16, u16, u8),
    Free(u16),
    /// A slot has this cell.
    Cell(u16, u16, u8),
    NoCell(u16),
    /// There are so many slots.
    Slots(u16),
    /// There is room for so many bytes.
    Room(u32),
}

/// Puts a cell.
fn put(alloc: Global, b: &mut [u8], len: u16, fill: u8) -> Result<Result<u16, NoRoom>, Fail>
    requires { IsDataPage b.old }
    ensures { IsDataPage b.new }
{
    let bytes = vec![in alloc; fill; len as usize]?;
    Ok(put_cell(b, &bytes))
}

/// Replaces the cell of a slot, and tells whether the slot had one and the new one had room.
fn replace_used(alloc: Global, b: &mut [u8], slot: u16, len: u16, fill: u8) -> Result<bool, Fail>
    requires { IsDataPage b.old }
    ensures { IsDataPage b.new }
{
    let bytes = vec![in alloc; fill; len as usize]?;
    match cell(b, slot) {
        Some(_) => Ok(replace(b, slot, &bytes).is_ok()),
        None => Ok(false),
    }
}

/// Frees a slot.
fn free_slot(b: &mut [u8], slot: u16)
    requires { IsDataPage b.old }
    ensures { IsDataPage b.new }
{
    free(b, slot);
}

/// Tells whether a slot has a cell of so many equal bytes.
fn has_cell(b: &[u8], slot: u16, len: u16, fill: u8) -> bool
    requires { IsDataPage b.now }
{
    match cell(b, slot) {
        Some(bytes) => bytes.len() == len as usize && bytes.iter().all(|byte| *byte == fill),
        None => false,
    }
}

/// Does what a deed says, and tells whether it gives what it should.
fn does(alloc: Global, b: &mut [u8], deed: Deed) -> Result<bool, Fail>
    requires { IsDataPage b.old }
    ensures { IsDataPage b.new }
{
    Ok(match deed {
        Deed::Put(len, fill, slot) => put(alloc, b, len, fill)? == Ok(slot),
        Deed::Refused(len, need, room) => put(alloc, b, len, 7)? == Err(NoRoom { need, room }),
        Deed::Replace(slot, len, fill) => replace_used(alloc, b, slot, len, fill)?,
        Deed::Free(slot) => {
            free_slot(b, slot);
            true
        }
        Deed::Cell(slot, len, fill) => has_cell(b, slot, len, fill),
        Deed::NoCell(slot) => cell(b, slot).is_none(),
        Deed::Slots(count) => slots(b) == count,
        Deed::Room(bytes) => room(b) == bytes,
    })
}

/// Wants a page to do what each deed says, one after another.
pub fn does_each(rt: &impl Abort, alloc: Global, b: &mut [u8], deeds: &[Deed]) -> Result<(), Fail>
    requires { IsDataPage b.old }
    ensures { IsDataPage b.new }
{
    for (place, deed) in deeds.iter().enumerate() {
        assert!(rt; does(alloc, b, *deed)?, "deed {place}");
    }
    Ok(())
}
