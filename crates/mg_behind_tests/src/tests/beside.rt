//! That the writer runs beside its caller.

ghost use Rattle.std.specs.Prelude.{◌≡◌, Some};
ghost use Rattle.mg_behind.specs.Origins.{origin_of};

use crate::Waiting;
use mg_base::{Disk, MemDisk, PageNo};
use mg_behind::{Opened, Started, start};
use std::alloc::{AllocError, Global};
use std::marker::Brand;
use std::sync::atomic::{AtomicBool, Ordering};
use std::sync::{Arc, Wait};
use std::test::Fail;
use std::thread::Threads;

// Two page writes, and then the flag for which the first of them waits.
fn write_twice_named<
    J: Started<Waiting> + Send + 'static,
    R: Threads + Wait + Copy + Send + 'static,
>(rt: R, opened: Opened<Waiting>, go: &Arc<AtomicBool, Global>) -> (Waiting, u64)
    requires { J.origin ≡ Some (origin_of opened) }
{
    let (mut behind, writer) = opened.named::<J, R>(rt);
    if let Ok(1024) = behind.page_size() {
        let _first = behind.write(PageNo(0), &[1; 1024]);
        let _second = behind.write(PageNo(1), &[2; 1024]);
    }
    go.store(true, Ordering::SeqCst);
    writer.finish(behind)
}

fn write_twice<R: Threads + Wait + Copy + Send + 'static>(
    rt: R,
    opened: Opened<Waiting>,
    go: &Arc<AtomicBool, Global>,
) -> (Waiting, u64) {
    write_twice_named::<Brand, R>(rt, opened, go)
}

#[test]
fn a_second_write_answers_while_the_first_one_waits(rt: HostRuntime) -> Result<(), Fail> {
    let inner = MemDisk::new(rt.alloc(), 1024, 4, 8)?;
    let go = Arc::new(rt.alloc(), AtomicBool::new(false))?;
    let device = Waiting::new(inner, Arc::try_clone(&go)?);
    let Ok(opened) = start(rt.alloc(), device) else {
        return Err(AllocError.into());
    };
    let (device, given) = write_twice(rt, opened, &go);
    assert!(rt; given == 2 && device.has_seen());
    Ok(())
}
