//! The pages are written at the end.

ghost use Rattle.std.specs.Prelude.{◌≡◌, None};
ghost use Rattle.mg_pool.specs.Pool.{HasAtMost, IsPool};
ghost use Rattle.mg_survey.specs.Survey.{IsSameDisk};
ghost use Rattle.mg_database.specs.Finishing.{Finishes, WritesAll};

use mg_base::Disk;
use mg_pool::PoolFault;
use mg_space::Store;

/// Writes every dirty page, each after those that must precede it, and settles the disk. It takes no memory.
///
/// # Errors
///
/// `Offline` exactly where a page write had failed before, and then nothing is written; `DiskWrite` only
/// where the disk's count of faults rose in this call.
pub fn finish<D: Disk>(store: &mut Store<D>) -> Result<(), PoolFault>
    requires { IsPool D.meaning store.old }
    ensures ends { Finishes D.meaning store.old store.new result }
    ensures same { IsSameDisk D.meaning store.old.disk store.new.disk }
    ensures within { HasAtMost D.meaning store.new.disk store.old.geometry.limit }
{
    match store.online() {
        Ok(()) => {}
        Err(fault) => return Err(fault),
    }
    match write_all(store) {
        Ok(()) => {}
        Err(fault) => return Err(fault),
    }
    store.settle()
}

/// Writes every dirty page: each time the least one, or one that must precede it.
///
/// # Errors
///
/// `DiskWrite`.
fn write_all<D: Disk>(store: &mut Store<D>) -> Result<(), PoolFault>
    requires pool { IsPool D.meaning store.old }
    requires online { store.old.offline ≡ None }
    ensures { WritesAll D.meaning store.old store.new result }
{
    while let Some(goal) = store.least_dirty() {
        match store.write_one(goal) {
            Ok(_) => {}
            Err(fault) => return Err(fault),
        }
    }
    Ok(())
}
