//! What no clause says: that a new database is written with ample memory, and its bytes.

ghost use Rattle.std.specs.Prelude.{◌≡◌, Some, IfOk};
ghost use Rattle.mg_base.specs.MemDisk.{mem_meaning};
ghost use Rattle.mg_pool.specs.Pool.{HasAtMost, IsPool};
ghost use Rattle.mg_format.specs.Format.{IsClean};
ghost use Rattle.mg_space.specs.Taking.{IsGeometry};

use super::bytes::has_bytes;
use super::steps::{Step, go_each};
use mg_base::{Disk, Geometry, MemDisk, Memory, PageNo};
use mg_format::format_database;
use mg_pool::Pool;
use mg_space::Store;
use std::alloc::Global;
use std::test::Fail;

/// A store over a disk with pages of 4096 bytes.
fn store_over<D: Disk + Drop>(alloc: Global, disk: D) -> Result<Store<D>, Memory>
    requires size { D.meaning.size disk ≡ Some 4096 }
    requires within { HasAtMost D.meaning disk 16 }
    ensures pool { IfOk result (λ store. IsPool D.meaning store) }
    ensures geometry { IfOk result (λ store. IsGeometry store.geometry) }
    ensures limit { IfOk result (λ store. store.geometry.limit ≡ 16) }
    ensures clean { IfOk result (λ store. IsClean store) }
{
    let geometry = Geometry {
        size: 4096,
        limit: 16,
    };
    match Pool::new(alloc, disk, geometry) {
        Ok(store) => Ok(store),
        Err(_) => Err(Memory),
    }
}

/// A disk without pages.
fn new_disk(alloc: Global) -> Result<MemDisk, Memory>
    ensures size { IfOk result (λ disk. mem_meaning.size disk ≡ Some 4096) }
    ensures count { IfOk result (λ disk. mem_meaning.count disk ≡ Some 0) }
{
    let mut disk = MemDisk::new(alloc, 4096, 8, 16)?;
    let Ok(0) = disk.pages() else {
        return Err(Memory);
    };
    Ok(disk)
}

/// The disk of a new database.
fn new_database(alloc: Global) -> Result<MemDisk, Fail> {
    let mut store = store_over(alloc, new_disk(alloc)?)?;
    let formatted = format_database(&mut store);
    let disk = store.into_disk();
    formatted?;
    Ok(disk)
}

/// The bytes of a page of a disk.
fn bytes_of<D: Disk>(disk: &mut D, page: u32) -> Option<[u8; 4096]> {
    let Ok(pages) = disk.pages() else {
        return None;
    };
    let Ok(4096) = disk.page_size() else {
        return None;
    };
    let mut bytes = [9; 4096];
    if page >= pages || disk.read(PageNo(page), &mut bytes).is_err() {
        return None;
    }
    Some(bytes)
}

/// A page, a place of it, and the bytes that stand there in a new database: on the header from the
/// magic number on, on the page inventory page, and on the data page of the catalog.
struct First(u32, usize, &'static [u8]);

impl<D: Disk> Step<D> for First {
    fn goes(&self, on: &mut D) -> bool {
        match bytes_of(on, self.0) {
            Some(bytes) => has_bytes(&bytes, self.1, self.2),
            None => false,
        }
    }
}

const FIRST_BYTES: &[First] = &[
    First(
        0,
        16,
        &[
            0x4d, 0x47, 0x44, 0x42, 1, 0, 0, 0, 0, 0x10, 0, 0, 1, 0, 0, 0, 1, 0, 0, 0, 1, 0, 0, 0,
            1, 0, 0, 0, 2, 0, 0, 0, 0x20, 0x4e, 0, 0, 3, 0, 0, 0,
        ],
    ),
    First(1, 16, &[0x7f, 0]),
    First(4, 16, &[6, 0, 0x82, 0x0f, 0xf5, 0x0f, 11, 0]),
];

#[test]
fn a_new_database_has_its_header_last(rt: HostRuntime) -> Result<(), Fail> {
    let mut disk = new_database(rt.alloc())?;
    assert!(rt; disk.writes() == 7);
    go_each(&rt, &mut disk, FIRST_BYTES);
    Ok(())
}
