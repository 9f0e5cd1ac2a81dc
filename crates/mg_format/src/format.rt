//! The writing of a new database.

ghost use Rattle.std.specs.Prelude.{◌≡◌, ◌<◌, ◌≤◌, ℕ, length, false, None, OnOk};
ghost use Rattle.mg_base.specs.Image.{Image};
ghost use Rattle.mg_image.specs.Form.{packed_coding};
ghost use Rattle.mg_image.specs.NewDatabase.{IsNewPage};
ghost use Rattle.mg_pool.specs.Batch.{content_in, one_page, orders_of};
ghost use Rattle.mg_pool.specs.Change.{ChangesOverlays};
ghost use Rattle.mg_careful.specs.Graph.{is_ordered};
ghost use Rattle.mg_pool.specs.Fault.{OnlyWrites, TellsFault};
ghost use Rattle.mg_pool.specs.Pool.{IsPool, LeavesOverlays};
ghost use Rattle.mg_format.specs.Format.{FormatDone, IsClean, IsFresh, IsOnlyDirty, SaysAlike, WritesNew};
ghost use Rattle.mg_space.specs.Taking.{IsGeometry};
ghost use Rattle.mg_space.specs.View.{Tells};

use crate::pages::new_page;
use mg_base::{Disk, PageNo};
use mg_pool::PoolFault;
use mg_slots::GREATEST_SIZE;
use mg_space::Store;

/// Writes the seven pages of a new database, the header last, and settles them. No page is dirty
/// before it, and none at Ok.
///
/// Stopped at any page write, it leaves a disk on which a database may be made, or the whole new
/// database: the header is the last page that is written.
///
/// # Errors
///
/// `Offline` exactly where an earlier call answered `DiskWrite`; `DiskWrite` only where the disk's
/// count of faults rose in this call. It takes no memory.
pub fn format_database<D: Disk>(store: &mut Store<D>) -> Result<(), PoolFault>
    requires pool { IsPool D.meaning store.old }
    requires geometry { IsGeometry store.old.geometry }
    requires room { 7 ≤ store.old.geometry.limit }
    requires clean { IsClean store.old }

    ensures pool { IsPool D.meaning store.new }
    ensures geometry { store.new.geometry ≡ store.old.geometry }
    ensures clean { OnOk result (IsClean store.new) }
    ensures own { OnlyWrites result }
    ensures fault { TellsFault D.meaning store.old store.new result }
    ensures says { SaysAlike D.meaning store.old.disk store.new.disk }
    ensures never_falls { OnOk result
        (D.meaning.faults store.old.disk ≤ D.meaning.faults store.new.disk) }
    ensures done { (image : Image) → IsFresh D.meaning store.old image
        → FormatDone D.meaning store.old.disk store.new.disk store.old.geometry.size result }
{
    store.online()?;
    for n in 1..7 {
        write_new(store, n)?;
    }
    write_new(store, 0)?;
    store.settle()
}

/// Writes one page of a new database.
fn write_new<D: Disk>(store: &mut Store<D>, n: u32) -> Result<(), PoolFault>
    requires pool { IsPool D.meaning store.old }
    requires geometry { IsGeometry store.old.geometry }
    requires room { 7 ≤ store.old.geometry.limit }
    requires clean { IsClean store.old }
    requires few { n ≤ 6 }

    ensures pool { IsPool D.meaning store.new }
    ensures geometry { store.new.geometry ≡ store.old.geometry }
    ensures clean { OnOk result (IsClean store.new) }
    ensures own { OnlyWrites result }
    ensures fault { TellsFault D.meaning store.old store.new result }
    ensures says { SaysAlike D.meaning store.old.disk store.new.disk }
    ensures steady { OnOk result
        (D.meaning.faults store.new.disk ≡ D.meaning.faults store.old.disk) }
    ensures writes { (image : Image) → Tells D.meaning store.old.disk image
        → WritesNew D.meaning store.old.disk store.new.disk store.old.geometry.size image n result }
{
    let mut room = [0u8; GREATEST_SIZE];
    let size = store.geometry().size as usize;
    let page = &mut room[..size];
    new_page(page, n);
    write_page(store, n, page)
}

/// Writes one page, which has this content then.
fn write_page<D: Disk>(store: &mut Store<D>, n: u32, bytes: &[u8]) -> Result<(), PoolFault>
    requires pool { IsPool D.meaning store.old }
    requires clean { IsClean store.old }
    requires below { n < store.old.geometry.limit }
    requires whole { length bytes.now ≡ store.old.geometry.size }
    requires new { IsNewPage packed_coding store.old.geometry.size n bytes.now }

    ensures pool { IsPool D.meaning store.new }
    ensures geometry { store.new.geometry ≡ store.old.geometry }
    ensures clean { OnOk result (IsClean store.new) }
    ensures own { OnlyWrites result }
    ensures fault { TellsFault D.meaning store.old store.new result }
    ensures says { SaysAlike D.meaning store.old.disk store.new.disk }
    ensures steady { OnOk result
        (D.meaning.faults store.new.disk ≡ D.meaning.faults store.old.disk) }
    ensures writes { (image : Image) → Tells D.meaning store.old.disk image
        → WritesNew D.meaning store.old.disk store.new.disk store.old.geometry.size image n result }
{
    put_page(store, n, bytes)?;
    store.write_one(PageNo(n))?;
    Ok(())
}

/// Changes one page, of which no other is dirty then.
fn put_page<D: Disk>(store: &mut Store<D>, n: u32, bytes: &[u8]) -> Result<(), PoolFault>
    requires pool { IsPool D.meaning store.old }
    requires clean { IsClean store.old }
    requires below { n < store.old.geometry.limit }
    requires whole { length bytes.now ≡ store.old.geometry.size }

    ensures pool { IsPool D.meaning store.new }
    ensures geometry { store.new.geometry ≡ store.old.geometry }
    ensures only { OnOk result (IsOnlyDirty store.new n) }
    ensures own { OnlyWrites result }
    ensures fault { TellsFault D.meaning store.old store.new result }
    ensures says { SaysAlike D.meaning store.old.disk store.new.disk }
    ensures steady { OnOk result
        (D.meaning.faults store.new.disk ≡ D.meaning.faults store.old.disk) }
    ensures unordered { OnOk result
        ((a b : ℕ) → is_ordered store.new.graph a b ≡ false) }
    ensures frame { OnOk result (ChangesOverlays D.meaning
        (content_in (one_page n bytes.now)) (orders_of None (record { 0 = n }))
        store.old store.new) }
    ensures crash { LeavesOverlays D.meaning store.old store.new }
{
    store.change_one(PageNo(n), bytes, None)
}
