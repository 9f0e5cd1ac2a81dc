//! Page writes through the ring.

ghost use Rattle.std.specs.Prelude.{◌≡◌, Some};
ghost use Rattle.std.specs.Bool.{OnTrue};
ghost use Rattle.mg_behind.specs.Origins.{origin_of};

use mg_base::{Disk, FaultyDisk, MemDisk, PageNo};
use mg_behind::{Opened, Started, start};
use std::alloc::AllocError;
use std::marker::Brand;
use std::sync::Wait;
use std::test::Fail;
use std::thread::Threads;

/// How a run went.
#[derive(Drop)]
pub struct Run<D> {
    /// The device, once it came back.
    pub device: D,
    /// How many jobs it was given.
    pub given: u64,
    /// How many page writes answered Ok before one was refused.
    pub written: u8,
    /// Whether the settle answered Ok.
    pub settled: bool,
    pub refused: u64,
    pub past: u64,
}

/// Writes pages 0 to 3 in turn, as often as `count` says: the first write is of a page of ones, the next of twos, and
/// so on. Answers how many were not refused.
pub fn write_in_turn<D: Disk>(disk: &mut D, count: u8) -> u8
    requires { D.meaning.size disk.old ≡ Some 1024 }
{
    let mut written = 0;
    for k in 1..=count {
        if disk.write(PageNo(u32::from(k) % 4), &[k; 1024]).is_err() {
            return written;
        }
        written = k;
    }
    written
}

// Whether the pages have 1024 bytes.
fn has_small_pages<D: Disk>(disk: &mut D) -> bool
    ensures { OnTrue result (D.meaning.size disk.new ≡ Some 1024) }
{
    match disk.page_size() {
        Ok(size) => size == 1024,
        Err(_) => false,
    }
}

// So many page writes and a settle, under the name of the start.
fn run_named<
    D: Disk + Send + Drop + 'static,
    J: Started<D> + Send + 'static,
    R: Threads + Wait + Copy + Send + 'static,
>(rt: R, opened: Opened<D>, count: u8) -> Run<D>
    requires { J.origin ≡ Some (origin_of opened) }
{
    let (mut behind, writer) = opened.named::<J, R>(rt);
    let mut written = 0;
    if has_small_pages(&mut behind) {
        written = write_in_turn(&mut behind, count);
    }
    let settled = behind.settle().is_ok();
    let refused = behind.refused();
    let past = behind.past();
    let (device, given) = writer.finish(behind);
    Run {
        device,
        given,
        written,
        settled,
        refused,
        past,
    }
}

/// So many page writes and a settle.
pub fn run_behind<D: Disk + Send + Drop + 'static, R: Threads + Wait + Copy + Send + 'static>(
    rt: R,
    opened: Opened<D>,
    count: u8,
) -> Run<D> {
    run_named::<D, Brand, R>(rt, opened, count)
}

/// The first byte of a page, where there is one.
pub fn first_byte<D: Disk>(disk: &mut D, page: u32) -> Option<u8> {
    let Ok(1024) = disk.page_size() else {
        return None;
    };
    let Ok(pages) = disk.pages() else {
        return None;
    };
    let mut bytes = [0; 1024];
    if page >= pages || disk.read(PageNo(page), &mut bytes).is_err() {
        return None;
    }
    Some(bytes[0])
}

#[test]
fn page_writes_reach_the_device_in_their_order(rt: HostRuntime) -> Result<(), Fail> {
    let device = MemDisk::new(rt.alloc(), 1024, 4, 300)?;
    let Ok(opened) = start(rt.alloc(), device) else {
        return Err(AllocError.into());
    };
    let run = run_behind(rt, opened, 200);
    assert!(rt; run.settled && run.written == 200 && run.given == 201);
    let Run { device, .. } = run;
    assert!(rt; device.writes() == 200);
    for k in 1..=200u32 {
        let mut then = device.after(rt.alloc(), k, 0)?;
        assert!(rt; first_byte(&mut then, k % 4) == Some(k as u8), "write {k}");
    }
    Ok(())
}

#[test]
fn a_failure_is_told_and_no_later_job_is_given(rt: HostRuntime) -> Result<(), Fail> {
    let inner = MemDisk::new(rt.alloc(), 1024, 4, 300)?;
    // The start asks for the size and the number of pages, so the third page write is the fifth call.
    let device = FaultyDisk::new(inner, vec![in rt.alloc(); 5]?);
    let Ok(opened) = start(rt.alloc(), device) else {
        return Err(AllocError.into());
    };
    let run = run_behind(rt, opened, 5);
    assert!(rt; !run.settled && run.refused > 0 && run.past == 0 && run.given == 3);
    let Run { device, .. } = run;
    let mut device = device.into_inner();
    assert!(rt; device.writes() == 2);
    assert!(rt; first_byte(&mut device, 1) == Some(1) && first_byte(&mut device, 2) == Some(2));
    Ok(())
}
