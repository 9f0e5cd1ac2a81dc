//! A disk becomes one whose pages may be read.

ghost use Rattle.std.specs.Prelude.{◌≡◌, ◌≤◌, None};
ghost use Rattle.mg_format.specs.Format.{IsClean};
ghost use Rattle.mg_pool.specs.Pool.{IsPool};
ghost use Rattle.mg_space.specs.Taking.{IsGeometry};
ghost use Rattle.mg_database.specs.Preparing.{MakesIf, PreparesDisk};

use crate::fault::OpenFault;
use mg_base::Disk;
use mg_format::format_database;
use mg_pool::{Pool, PoolFault};
use mg_space::{SpaceFault, Store};
use mg_survey::ask;
use std::alloc::Global;

/// A cache over a disk, whose pages may be read. Where a database may be made on the disk, a new one is
/// written first, its header last; any other disk is not written.
///
/// The page limit is the greater of `limit` and the disk's number of pages, and at least seven, as many as a
/// new database has. No page past it is written. Where page 0 is not zero, no other page is read. At most
/// `clean` clean pages are kept in memory.
///
/// # Errors
///
/// `Pool` alone: `DiskRead` of the disk's first calls; `Memory`; `DiskWrite` only where a new database is
/// written. The disk comes back.
pub fn prepare<D: Disk>(
    alloc: Global,
    disk: D,
    limit: u32,
    clean: u32,
) -> Result<Store<D>, (D, OpenFault)>
    requires { 1 ≤ clean }
    ensures { PreparesDisk D.meaning disk limit result }
{
    let mut disk = disk;
    let surveyed = match ask(&mut disk, limit) {
        Ok(surveyed) => surveyed,
        Err(_) => return Err((disk, of_pool(PoolFault::DiskRead { faults: 1 }))),
    };
    let mut store = match Pool::with_cache(alloc, disk, surveyed.geometry, clean) {
        Ok(store) => store,
        Err((disk, _)) => return Err((disk, of_pool(PoolFault::Memory))),
    };
    match make_if(&mut store, surveyed.unmade) {
        Ok(()) => Ok(store),
        Err(fault) => Err((store.into_disk(), of_pool(fault))),
    }
}

/// Writes a new database, if one is to be made.
///
/// # Errors
///
/// `DiskWrite`.
fn make_if<D: Disk>(store: &mut Store<D>, unmade: bool) -> Result<(), PoolFault>
    requires pool { IsPool D.meaning store.old }
    requires geometry { IsGeometry store.old.geometry }
    requires room { 7 ≤ store.old.geometry.limit }
    requires clean { IsClean store.old }
    requires online { store.old.offline ≡ None }
    ensures { MakesIf D.meaning unmade store.old store.new result }
{
    if unmade {
        format_database(store)
    } else {
        Ok(())
    }
}

/// A fault of the cache.
fn of_pool(fault: PoolFault) -> OpenFault
    ensures { result ≡ OpenFault.Space (SpaceFault.Pool fault) }
{
    OpenFault::Space(SpaceFault::Pool(fault))
}
