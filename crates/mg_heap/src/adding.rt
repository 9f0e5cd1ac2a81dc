//! A cell is added to a table.

ghost use Rattle.std.specs.Prelude.{◌≡◌, ◌≢◌, ◌≤◌, ◌<◌, ◌+◌, ◌^◌, IfErr, IfOk, MatchResult, OnErr, OnOk, length};
ghost use Rattle.mg_base.specs.Image.{Image};
ghost use Rattle.mg_pool.specs.Fault.{TellsFault};
ghost use Rattle.mg_pool.specs.Pool.{IsPool};
ghost use Rattle.mg_slots.specs.Changes.{PutsCell};
ghost use Rattle.mg_slots.specs.DataPage.{IsDataPage};
ghost use Rattle.mg_slots.specs.Room.{least_free, need_of, room_of};
ghost use Rattle.mg_space.specs.Taking.{IsGeometry};
ghost use Rattle.mg_space.specs.View.{AreWhole, KeepsStore, ReadsAlone, Tells, pool_answer, viewed};
ghost use Rattle.mg_heap.specs.Changing.{ChangesOne};
ghost use Rattle.mg_heap.specs.Reading.{ReadsData};
ghost use Rattle.mg_heap.specs.Room.{AddsCell, PutsIn, RefusesAdd, RefusesPutIn, lack_of, room_damage};

use crate::reading::data_page;
use crate::room::page_with_room;
use mg_base::{Damaged, Disk, Field, GREATEST_LIMIT, PageNo, RecId};
use mg_pool::Batch;
use mg_slots::{LEAST_TAKEN, NoRoom, put_cell};
use mg_space::{SpaceFault, Store};

/// Adds a cell to a table: it is put into the least free slot of a data page with room for it, as
/// `page_with_room` gives it.
///
/// # Errors
///
/// As `page_with_room`, and as `cell` of the page that it gave. A page that it gave has room.
pub fn add<D: Disk>(
    store: &mut Store<D>,
    batch: &mut Batch,
    owner: PageNo,
    cell: &[u8],
) -> Result<RecId, SpaceFault>
    requires pool { IsPool D.meaning store.old }
    requires geometry { IsGeometry store.old.geometry }
    requires whole { AreWhole store.old.geometry batch.old.pages }
    requires owner { owner.0 < GREATEST_LIMIT }
    requires some { owner.0 ≢ 0 }
    requires length { length cell.now + 24 ≤ store.old.geometry.size }

    ensures keeps { KeepsStore D.meaning store.old store.new }
    ensures fault { TellsFault D.meaning store.old store.new (pool_answer result) }
    ensures own { ReadsAlone result }
    ensures whole { AreWhole store.old.geometry batch.new.pages }
    ensures adds { (image : Image) → Tells D.meaning store.old.disk image → MatchResult result
        (AddsCell store.old image batch.old batch.new owner.0 cell.now)
        (RefusesAdd D.meaning store.old store.new image batch.old owner.0 cell.now) }
{
    let page = page_with_room(store, batch, owner, needed(cell))?;
    put_in(store, batch, page, cell)
}

/// How many bytes a cell needs.
fn needed(cell: &[u8]) -> u32
    requires { length cell.now < 2 ^ 31 }
    ensures { result ≡ need_of cell.now }
{
    cell.len().max(LEAST_TAKEN) as u32
}

/// Puts a cell into the least free slot of a page.
///
/// # Errors
///
/// As `cell`; `Damaged` at `Count` where the cell has no room, with what it needs as found and what it may
/// take as wanted. No caller here meets that.
fn put_in<D: Disk>(
    store: &mut Store<D>,
    batch: &mut Batch,
    page: PageNo,
    cell: &[u8],
) -> Result<RecId, SpaceFault>
    requires pool { IsPool D.meaning store.old }
    requires geometry { IsGeometry store.old.geometry }
    requires whole { AreWhole store.old.geometry batch.old.pages }
    requires length { length cell.now < 2 ^ 31 }

    ensures keeps { KeepsStore D.meaning store.old store.new }
    ensures fault { TellsFault D.meaning store.old store.new (pool_answer result) }
    ensures own { ReadsData result }
    ensures whole { AreWhole store.old.geometry batch.new.pages }
    ensures changes { IfOk result
        (λ at. ChangesOne store.old.geometry.size batch.old batch.new at.page.0) }
    ensures puts { (image : Image) → Tells D.meaning store.old.disk image → MatchResult result
        (PutsIn (viewed store.old image batch.old) (viewed store.old image batch.new) page cell.now)
        (RefusesPutIn D.meaning store.new batch.old (viewed store.old image batch.old page.0) page
        cell.now) }
{
    let mut bytes = data_page(store, batch, page)?.into_vec();
    let slot = put_least(&mut bytes, page, cell)?;
    batch.put(page, &bytes)?;
    Ok(RecId { page, slot })
}

/// Puts a cell into the least free slot of a data page.
fn put_least(b: &mut [u8], page: PageNo, cell: &[u8]) -> Result<u16, Damaged>
    requires lawful { IsDataPage b.old }
    requires length { length cell.now < 2 ^ 31 }
    ensures slot { IfOk result (λ slot. slot ≡ least_free b.old) }
    ensures put { OnOk result (PutsCell b.old b.new (least_free b.old) cell.now) }
    ensures no_room { OnErr result (room_of b.old < need_of cell.now) }
    ensures damage { IfErr result (λ it.
        it ≡ room_damage page (lack_of (need_of cell.now) (room_of b.old))) }
    ensures len { length b.new ≡ length b.old }
{
    match put_cell(b, cell) {
        Ok(slot) => Ok(slot),
        Err(lack) => Err(no_room(page, lack)),
    }
}

/// Names a page on which a cell has no room.
pub(crate) fn no_room(page: PageNo, lack: NoRoom) -> Damaged
    ensures { result ≡ room_damage page lack }
{
    Damaged {
        page,
        field: Field::Count,
        found: u64::from(lack.need),
        wanted: u64::from(lack.room),
    }
}
