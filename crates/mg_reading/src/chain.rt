//! The pages of a table: its pointer pages and their entries.

ghost use Rattle.std.specs.Prelude.{◌≡◌, ◌≤◌, ◌++◌, IfErr, IfOk, OnOk, length};
ghost use Rattle.mg_pointer.specs.PointerPage.{IsPointerPage, entries_of};
ghost use Rattle.mg_reading.specs.ImageView.{pages_in};
ghost use Rattle.mg_reading.specs.Readable.{HasPointers, Refutes};
ghost use Rattle.mg_image.specs.Sound.{IsTablePointer};
ghost use Rattle.mg_image.specs.Tables.{EachFrom, PointerChain, entries_in};

use crate::image::Image;
use crate::point::{ReadFault, Rule};
use mg_base::{Memory, get_u16, get_u32};
use mg_pointer::{COUNT_AT, ENTRIES_AT, ENTRY_LEN, next_of};
use std::alloc::Global;

/// The pages of a table, in the order of their places.
#[derive(Drop)]
pub struct TablePages {
    pub pointers: Vec<u32>,
    pub data_pages: Vec<u32>,
}

/// Appends the entries of a pointer page.
#[tactic(auto, unfolding(mg_pointer::specs::PointerPage::entries_of))]
fn add_entries(page: &[u8], data_pages: &mut Vec<u32>) -> Result<(), Memory>
    requires { IsPointerPage page.now }
    ensures { OnOk result (data_pages.new.items ≡ data_pages.old.items ++ entries_of page.now) }
{
    for i in 0..get_u16(page, COUNT_AT) as usize {
        data_pages.push(get_u32(page, ENTRIES_AT + ENTRY_LEN * i))?;
    }
    Ok(())
}

/// Follows the chain of pointer pages of an owner.
///
/// # Errors
///
/// `Broken` only where a page of the chain is not as wanted; `Memory`.
pub fn table_pages(alloc: Global, image: &Image, owner: u32) -> Result<TablePages, ReadFault>
    ensures chain { IfOk result (λ table.
        PointerChain (pages_in image.now) owner table.pointers.items) }
    ensures wanted { IfOk result (λ table.
        EachFrom (IsTablePointer image.now.size (pages_in image.now) owner) 0
        table.pointers.items) }
    ensures entries { IfOk result (λ table.
        table.data_pages.items ≡ entries_in (pages_in image.now) table.pointers.items) }
    ensures broken { IfErr result (Refutes
        (HasPointers image.now.size (pages_in image.now) owner)) }
{
    let mut pointers = Vec::new(alloc);
    let mut data_pages = Vec::new(alloc);
    let mut n = owner;
    while n != 0 {
        if !image.is_pointer(n, owner, pointers.len()) {
            return Err(ReadFault::Broken(Rule::Pages));
        }
        add_entries(image.page(n), &mut data_pages)?;
        pointers.push(n)?;
        n = next_of(image.page(n)).0;
    }
    Ok(TablePages {
        pointers,
        data_pages,
    })
}
