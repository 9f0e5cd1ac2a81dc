//! How large a device may be.

ghost use Rattle.std.specs.Prelude.{◌≡◌, Some};
ghost use Rattle.mg_behind.specs.Origins.{origin_of};

use super::runs::run_behind;
use mg_base::{Disk, MemDisk, Memory, PageNo};
use mg_behind::{BehindFault, MOST_PAGES, Opened, Started, start};
use std::alloc::{AllocError, Global};
use std::marker::Brand;
use std::sync::Wait;
use std::test::Fail;
use std::thread::Threads;

// A disk with so many pages of 1,024 bytes.
fn disk_of(alloc: Global, pages: u32) -> Result<MemDisk, Memory> {
    let mut disk = MemDisk::new(alloc, 1024, pages, 1)?;
    if pages > 0 {
        let _written = disk.write(PageNo(pages - 1), &[7; 1024]);
    }
    Ok(disk)
}

#[test]
fn a_device_with_a_page_too_many_is_refused(rt: HostRuntime) -> Result<(), Fail> {
    let device = disk_of(rt.alloc(), MOST_PAGES + 1)?;
    match start(rt.alloc(), device) {
        Err((_, fault)) => assert!(rt; fault == BehindFault::TooLarge { pages: 16_385 }),
        Ok(opened) => {
            let _run = run_behind(rt, opened, 0);
            panic!(rt; "it was not refused");
        }
    }
    Ok(())
}

// A write of the last page, and one past it: how many were refused, and how many jobs were given.
fn past_named<J: Started<MemDisk> + Send + 'static, R: Threads + Wait + Copy + Send + 'static>(
    rt: R,
    opened: Opened<MemDisk>,
) -> (u64, u64, u64)
    requires { J.origin ≡ Some (origin_of opened) }
{
    let (mut behind, writer) = opened.named::<J, R>(rt);
    if let Ok(1024) = behind.page_size() {
        let _inside = behind.write(PageNo(MOST_PAGES - 1), &[8; 1024]);
        let _outside = behind.write(PageNo(MOST_PAGES), &[9; 1024]);
    }
    let past = behind.past();
    let refused = behind.refused();
    let (_, given) = writer.finish(behind);
    (past, refused, given)
}

fn past_of<R: Threads + Wait + Copy + Send + 'static>(
    rt: R,
    opened: Opened<MemDisk>,
) -> (u64, u64, u64) {
    past_named::<Brand, R>(rt, opened)
}

#[test]
fn a_write_past_the_room_is_refused_and_gives_no_job(rt: HostRuntime) -> Result<(), Fail> {
    let device = disk_of(rt.alloc(), 0)?;
    let Ok(opened) = start(rt.alloc(), device) else {
        return Err(AllocError.into());
    };
    assert!(rt; past_of(rt, opened).0 == 1);
    Ok(())
}
