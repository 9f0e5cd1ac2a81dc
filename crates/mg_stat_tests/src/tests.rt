//! What is printed of the figures of new databases of which some bytes are other ones, in pages of 1,024 bytes.

ghost use Rattle.std.specs.Prelude.{◌≡◌, ◌≤◌, IfOk, Some, length};
ghost use Rattle.mg_base.specs.MemDisk.{mem_meaning};

use mg_base::{Bytes, Disk, FaultyDisk, MemDisk, MemSink, Memory, PageNo};
use mg_format::new_page;
use mg_stat_report::tell_stat;
use std::alloc::Global;
use std::test::Fail;

// A byte of a page: the page, where it stands, and what it is.
struct Change(u32, usize, u8);

// A new database of so many pages with these changes, what is printed of it, and the status.
struct Row(u32, &'static [Change], &'static [u8], u8);

// The header page has the next transaction at byte 28, the oldest interesting one at 32, the oldest active one at 36, the
// oldest snapshot at 40, and the sweep interval at 48; page 1 has its bits from byte 16 on, page 2 its states from
// byte 20 on.
const ROWS: &[Row] = &[
    Row(
        7,
        &[],
        b"PAGE SIZE 1024\nVERSION 1.0\nNEXT 1\nOIT 1\nOAT 1\nOST 1\nSWEEP INTERVAL 20000\nSWEEP DUE NO\nPAGES 7\nTIP PAGES 1\nTABLE KV RECORDS 0 VERSIONS 0 PAGES 1\n",
        0,
    ),
    // OST is 4 past OIT: at the interval, and more than that
    Row(
        7,
        &[
            Change(0, 28, 5),
            Change(0, 36, 5),
            Change(0, 40, 5),
            Change(0, 48, 4),
            Change(0, 49, 0),
        ],
        b"PAGE SIZE 1024\nVERSION 1.0\nNEXT 5\nOIT 1\nOAT 5\nOST 5\nSWEEP INTERVAL 4\nSWEEP DUE NO\nPAGES 7\nTIP PAGES 1\nTABLE KV RECORDS 0 VERSIONS 0 PAGES 1\n",
        0,
    ),
    Row(
        7,
        &[
            Change(0, 28, 5),
            Change(0, 36, 5),
            Change(0, 40, 5),
            Change(0, 48, 3),
            Change(0, 49, 0),
        ],
        b"PAGE SIZE 1024\nVERSION 1.0\nNEXT 5\nOIT 1\nOAT 5\nOST 5\nSWEEP INTERVAL 3\nSWEEP DUE YES\nPAGES 7\nTIP PAGES 1\nTABLE KV RECORDS 0 VERSIONS 0 PAGES 1\n",
        0,
    ),
    // a page past the end is marked as used
    Row(
        7,
        &[Change(1, 17, 1)],
        b"PAGE SIZE 1024\nVERSION 1.0\nNEXT 1\nOIT 1\nOAT 1\nOST 1\nSWEEP INTERVAL 20000\nSWEEP DUE NO\nPAGES 8\nTIP PAGES 1\nTABLE KV RECORDS 0 VERSIONS 0 PAGES 1\n",
        0,
    ),
    // number 0 is committed, 1 in limbo
    Row(
        7,
        &[Change(0, 28, 2), Change(2, 20, 7)],
        b"PAGE SIZE 1024\nVERSION 1.0\nNEXT 2\nOIT 1\nOAT 1\nOST 1\nSWEEP INTERVAL 20000\nSWEEP DUE NO\nPAGES 7\nTIP PAGES 1\nTABLE KV RECORDS 0 VERSIONS 0 PAGES 1\nLIMBO 1\n",
        0,
    ),
    Row(0, &[], b"mgdb: NOT A DATABASE MAGIC FOUND 0\n", 4),
    Row(
        7,
        &[Change(0, 16, 78)],
        b"mgdb: NOT A DATABASE MAGIC FOUND 1111770958\n",
        4,
    ),
    Row(
        7,
        &[Change(0, 32, 0)],
        b"mgdb: DAMAGED PAGE 0 OIT FOUND 0 WANTED 1\n",
        4,
    ),
    // the page inventory comes before the transaction inventory
    Row(
        7,
        &[Change(1, 4, 7), Change(2, 4, 7)],
        b"mgdb: DAMAGED PAGE 1 OWN FOUND 7 WANTED 1\n",
        4,
    ),
    Row(
        7,
        &[Change(2, 4, 7)],
        b"mgdb: DAMAGED PAGE 2 OWN FOUND 7 WANTED 2\n",
        4,
    ),
    // the catalog's pointer page and its data page, and those of KV
    Row(
        7,
        &[Change(3, 0, 9)],
        b"mgdb: DAMAGED PAGE 3 KIND FOUND 9 WANTED 4\n",
        4,
    ),
    Row(
        7,
        &[Change(4, 0, 9)],
        b"mgdb: DAMAGED PAGE 4 KIND FOUND 9 WANTED 5\n",
        4,
    ),
    Row(
        7,
        &[Change(5, 0, 9)],
        b"mgdb: DAMAGED PAGE 5 KIND FOUND 9 WANTED 4\n",
        4,
    ),
    Row(
        7,
        &[Change(6, 4, 7)],
        b"mgdb: DAMAGED PAGE 6 OWN FOUND 7 WANTED 6\n",
        4,
    ),
    Row(
        6,
        &[],
        b"mgdb: DAMAGED PAGE 6 PRESENCE FOUND 6 WANTED 7\n",
        4,
    ),
    // page 6 is not marked as used
    Row(
        7,
        &[Change(1, 16, 63)],
        b"mgdb: DAMAGED PAGE 6 BIT FOUND 0 WANTED 1\n",
        4,
    ),
];

// Sets a byte of a page, if it has it.
fn put_byte(page: &mut [u8], at: usize, byte: u8) {
    if at < page.len() {
        page[at] = byte;
    }
}

// A page of a new database with the changes.
fn page_with(alloc: Global, n: u32, changes: &[Change]) -> Result<Bytes, Memory>
    requires { n ≤ 6 }
    ensures { IfOk result (λ page. length page ≡ 1024) }
{
    let mut page = Bytes::zeroed(alloc, 1024)?.into_vec();
    new_page(page.as_mut_slice(), n);
    for change in changes {
        if change.0 == n {
            put_byte(page.as_mut_slice(), change.1, change.2);
        }
    }
    Ok(Bytes::new(page))
}

// Writes a page of 1,024 bytes.
fn write_page(disk: &mut MemDisk, n: u32, page: &[u8])
    requires size { mem_meaning.size disk.old ≡ Some 1024 }
    requires page { length page.now ≡ 1024 }
    ensures { mem_meaning.size disk.new ≡ Some 1024 }
{
    let _written = disk.write(PageNo(n), page);
}

// A new database of so many pages with the changes.
fn disk_with(alloc: Global, pages: u32, changes: &[Change]) -> Result<MemDisk, Memory> {
    let mut disk = MemDisk::new(alloc, 1024, 8, 16)?;
    for n in 0..pages.min(7) {
        let page = page_with(alloc, n, changes)?;
        write_page(&mut disk, n, page.as_slice());
    }
    Ok(disk)
}

// Whether a row is told so.
fn is_told(alloc: Global, row: &Row) -> Result<bool, Memory> {
    let mut disk = disk_with(alloc, row.0, row.1)?;
    let mut sink = MemSink::new(alloc, 400, Vec::new(alloc))?;
    let end = tell_stat(alloc, &mut disk, &mut sink);
    Ok(end.status().0 == row.3 && sink.bytes() == row.2)
}

#[test]
fn each_image_is_told(rt: HostRuntime) -> Result<(), Fail> {
    for (place, row) in ROWS.iter().enumerate() {
        assert!(rt; is_told(rt.alloc(), row) == Ok(true), "row {place}");
    }
    Ok(())
}

// Whether a call of the disk that fails is told.
fn tells_disk_fault(alloc: Global, call: u32) -> Result<bool, Memory> {
    let disk = disk_with(alloc, 7, &[])?;
    let mut faulty = FaultyDisk::new(disk, vec![in alloc; call]?);
    let mut sink = MemSink::new(alloc, 400, Vec::new(alloc))?;
    let end = tell_stat(alloc, &mut faulty, &mut sink);
    Ok(end.status().0 == 3 && sink.bytes() == b"mgdb: DISK READ FAULT\n".as_slice())
}

// The page size, the number of pages, and seven pages are nine calls.
#[test]
fn each_call_of_the_disk_that_fails_is_told(rt: HostRuntime) -> Result<(), Fail> {
    for call in 1..10 {
        assert!(rt;
            tells_disk_fault(rt.alloc(), call) == Ok(true),
            "call {call}"
        );
    }
    assert!(rt; tells_disk_fault(rt.alloc(), 10) == Ok(false));
    Ok(())
}

// The status where the sink fails.
fn status_of_full_sink(alloc: Global) -> Result<u8, Memory> {
    let mut disk = disk_with(alloc, 7, &[Change(0, 28, 2), Change(2, 20, 7)])?;
    let mut sink = MemSink::new(alloc, 3, Vec::new(alloc))?;
    Ok(tell_stat(alloc, &mut disk, &mut sink).status().0)
}

#[test]
fn a_sink_that_fails_is_told(rt: HostRuntime) -> Result<(), Fail> {
    assert!(rt; status_of_full_sink(rt.alloc()) == Ok(5));
    Ok(())
}
