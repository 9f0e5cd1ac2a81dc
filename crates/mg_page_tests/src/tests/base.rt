//! What no clause shows: that calls succeed with ample memory.

use super::bytes::has_bytes;
use super::cases::{Case, hold_each};
use super::steps::{Step, go_each};
use mg_base::{
    Disk, FaultyDisk, Geometry, MemDisk, MemSink, MemSource, OWN_AT, PageNo, Sink, Source, get_u16,
    get_u32, new_common, put_u16,
};
use std::alloc::Global;
use std::process::Abort;
use std::test::Fail;

/// The front of a page of the kind 5, the owner 6 and the sequence 7.
const FRONT: [u8; 24] = [
    5, 0, 0, 0, 4, 3, 2, 1, 6, 0, 0, 0, 7, 0, 0, 0, 0, 0, 0, 0, 0, 0, 0, 0,
];

/// A short page that had other bytes.
fn new_page() -> [u8; 24] {
    let mut page = [7u8; 24];
    new_common(&mut page, PageNo(0x0102_0304), 5, 6, 7);
    page
}

/// Tells whether a page begins with its common part.
fn has_common_part(page: &[u8; 24]) -> bool {
    has_bytes(page, 0, &FRONT) && get_u32(page, OWN_AT) == 0x0102_0304
}

/// Tells whether a number of two bytes is read as it was written.
fn is_number_kept(page: &mut [u8; 24]) -> bool {
    put_u16(page, 16, 0xfffe);
    get_u16(page, 16) == 0xfffe
}

/// A page size, a limit, and whether a database may have them.
struct Measured(u32, u32, bool);

impl Case for Measured {
    fn holds(&self, _alloc: Global) -> Result<bool, Fail> {
        Ok(Geometry::new(self.0, self.1).is_some() == self.2)
    }
}

/// A geometry has one of five sizes, and a limit in its range.
const GEOMETRIES: &[Measured] = &[
    Measured(1024, 16, true),
    Measured(16384, 131_072, true),
    Measured(4096, 15, false),
    Measured(4096, 131_073, false),
    Measured(4095, 16, false),
    Measured(0, 16, false),
    Measured(32768, 16, false),
];

#[test]
fn a_page_begins_with_its_common_part_and_has_one_of_five_sizes(
    rt: HostRuntime,
) -> Result<(), Fail> {
    let mut page = new_page();
    assert!(rt; has_common_part(&page) && is_number_kept(&mut page));
    hold_each(&rt, rt.alloc(), GEOMETRIES)
}

/// A call of a disk whose pages have 1024 bytes, and what it does.
enum Call {
    /// A page of equal bytes is written, or refused.
    Put(u32, u8, bool),
    /// A page has equal bytes of this value, or can't be read.
    Get(u32, Option<u8>),
    /// The disk settles, or refuses to.
    Settle(bool),
    /// There are so many pages.
    Pages(u32),
}

// Writes a page of 1024 equal bytes, after asking for the page size, and tells whether it did.
fn put<D: Disk>(disk: &mut D, page: u32, byte: u8) -> bool {
    match disk.page_size() {
        Ok(1024) => disk.write(PageNo(page), &[byte; 1024]).is_ok(),
        _ => false,
    }
}

// A page of 1024 bytes, if it can be read.
fn read_page<D: Disk>(disk: &mut D, page: u32) -> Option<[u8; 1024]> {
    let Ok(pages) = disk.pages() else {
        return None;
    };
    let Ok(1024) = disk.page_size() else {
        return None;
    };
    let mut bytes = [9; 1024];
    if page >= pages || disk.read(PageNo(page), &mut bytes).is_err() {
        return None;
    }
    Some(bytes)
}

// The byte of which a page of 1024 is made, if it can be read and its bytes are equal.
fn get<D: Disk>(disk: &mut D, page: u32) -> Option<u8> {
    let bytes = read_page(disk, page)?;
    let first = bytes[0];
    bytes.iter().all(|byte| *byte == first).then_some(first)
}

fn settles<D: Disk>(disk: &mut D) -> bool {
    disk.settle().is_ok()
}

fn has_pages<D: Disk>(disk: &mut D, count: u32) -> bool {
    disk.pages() == Ok(count)
}

impl<D: Disk> Step<D> for Call {
    fn goes(&self, on: &mut D) -> bool {
        match *self {
            Call::Put(page, byte, done) => put(on, page, byte) == done,
            Call::Get(page, byte) => get(on, page) == byte,
            Call::Settle(done) => settles(on) == done,
            Call::Pages(count) => has_pages(on, count),
        }
    }
}

/// A disk in memory with room for three pages, and for the record of so many writes.
fn new_disk(alloc: Global, writes: u32) -> Result<MemDisk, Fail> {
    Ok(MemDisk::new(alloc, 1024, 3, writes)?)
}

/// How many writes a disk has recorded.
fn writes_of(disk: &MemDisk) -> usize {
    disk.writes()
}

/// A disk in memory has room for its pages and its record.
const ROOM_OF_TWO: &[Call] = &[
    Call::Put(3, 1, false),
    Call::Put(2, 1, true),
    Call::Settle(true),
    Call::Put(0, 2, true),
    Call::Put(0, 3, false),
    Call::Get(0, Some(2)),
    Call::Get(1, Some(0)),
    Call::Get(2, Some(1)),
    Call::Get(3, None),
];

/// Wants a disk with room for the record of two writes to go each of those steps.
fn goes_with_room_of_two(rt: &impl Abort, alloc: Global) -> Result<(), Fail> {
    let mut disk = new_disk(alloc, 2)?;
    go_each(rt, &mut disk, ROOM_OF_TWO);
    assert!(rt; writes_of(&disk) == 2);
    Ok(())
}

/// The disk after its first write, with room for the record of one more.
fn after_first(alloc: Global, disk: &MemDisk) -> Result<MemDisk, Fail> {
    if disk.writes() != 2 {
        return Err("two writes")?;
    }
    Ok(disk.after(alloc, 1, 1)?)
}

const TWO_WRITES: &[Call] = &[Call::Put(0, 1, true), Call::Put(1, 2, true)];

/// A disk after its first write has that write alone.
const ONE_WRITE: &[Call] = &[
    Call::Pages(1),
    Call::Get(0, Some(1)),
    Call::Put(2, 3, true),
    Call::Get(1, Some(0)),
    Call::Put(2, 3, false),
];

/// Wants the disk after the first of two writes to go each of those steps.
fn goes_after_its_first(rt: &impl Abort, alloc: Global) -> Result<(), Fail> {
    let mut disk = new_disk(alloc, 4)?;
    go_each(rt, &mut disk, TWO_WRITES);
    let mut before = after_first(alloc, &disk)?;
    go_each(rt, &mut before, ONE_WRITE);
    Ok(())
}

/// A disk whose calls 2 and 5 fail.
fn faulty_disk(alloc: Global) -> Result<FaultyDisk, Fail> {
    let bad = vec![in alloc; 2, 5]?;
    Ok(FaultyDisk::new(new_disk(alloc, 9)?, bad))
}

/// How many calls a faulty disk has had, and how many writes are recorded below it.
fn counts_of(disk: FaultyDisk) -> (u32, usize) {
    (disk.calls(), disk.into_inner().writes())
}

/// The listed calls of a faulty disk fail.
const TWO_FAULTS: &[Call] = &[
    Call::Put(0, 1, false),
    Call::Put(0, 1, true),
    Call::Settle(false),
    Call::Settle(true),
];

/// Wants a faulty disk to go each of those steps.
fn goes_with_two_faults(rt: &impl Abort, alloc: Global) -> Result<(), Fail> {
    let mut disk = faulty_disk(alloc)?;
    go_each(rt, &mut disk, TWO_FAULTS);
    assert!(rt; counts_of(disk) == (6, 1));
    Ok(())
}

#[test]
fn a_disk_in_memory_keeps_the_writes_that_it_has_room_for_and_fails_where_it_is_to(
    rt: HostRuntime,
) -> Result<(), Fail> {
    goes_with_room_of_two(&rt, rt.alloc())?;
    goes_after_its_first(&rt, rt.alloc())?;
    goes_with_two_faults(&rt, rt.alloc())
}

/// A source of five bytes whose second call fails.
fn new_source(alloc: Global) -> Result<MemSource, Fail> {
    let bytes = b"hello".to_vec(alloc)?;
    Ok(MemSource::new(bytes, vec![in alloc; 2]?))
}

/// A call for three bytes gives these, or fails where there are none here.
struct Takes(Option<&'static [u8]>);

impl Step<MemSource> for Takes {
    fn goes(&self, on: &mut MemSource) -> bool {
        let mut piece = [0; 3];
        match on.take(&mut piece) {
            Ok(count) => piece.get(..count) == self.0,
            Err(_) => self.0.is_none(),
        }
    }
}

/// A source in memory gives its bytes.
const TAKEN: &[Takes] = &[
    Takes(Some(b"hel")),
    Takes(None),
    Takes(Some(b"lo")),
    Takes(Some(b"")),
];

/// A sink with room for six bytes, whose third call fails.
fn new_sink(alloc: Global) -> Result<MemSink, Fail> {
    Ok(MemSink::new(alloc, 6, vec![in alloc; 3]?)?)
}

/// A call of a sink, and what it does.
enum Fills {
    /// A piece is taken, or refused.
    Put(&'static [u8], bool),
    /// The sink has these bytes.
    Has(&'static [u8]),
}

impl Step<MemSink> for Fills {
    fn goes(&self, on: &mut MemSink) -> bool {
        match *self {
            Fills::Put(piece, done) => on.put(piece).is_ok() == done,
            Fills::Has(bytes) => on.bytes() == bytes,
        }
    }
}

/// A sink in memory takes the bytes that it has room for.
const PIECES: &[Fills] = &[
    Fills::Put(b"hel", true),
    Fills::Put(b"lo", true),
    Fills::Put(b"!", false),
    Fills::Put(b"..", false),
    Fills::Put(b"!", true),
    Fills::Has(b"hello!"),
];

#[test]
fn a_source_in_memory_gives_its_bytes_and_a_sink_takes_what_it_has_room_for(
    rt: HostRuntime,
) -> Result<(), Fail> {
    go_each(&rt, &mut new_source(rt.alloc())?, TAKEN);
    go_each(&rt, &mut new_sink(rt.alloc())?, PIECES);
    Ok(())
}
