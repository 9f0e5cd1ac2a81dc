//! Header pages, byte by byte.

use super::bytes::{has_bytes, is_zero_from, put_byte};
use super::cases::{Case, hold_each};
use super::steps::{Step, go_each};
use mg_base::{Damaged, Field, PageNo, TxNo, new_common};
use mg_header::{HEADER_KIND, HeadFault, Header, open_header, read_header, write_header};
use std::alloc::Global;
use std::test::Fail;

/// The fields of a new database with pages of 4,096 bytes.
const NEW_DATABASE: [u8; 40] = [
    0x4d, 0x47, 0x44, 0x42, 1, 0, 0, 0, 0, 0x10, 0, 0, 1, 0, 0, 0, 1, 0, 0, 0, 1, 0, 0, 0, 1, 0, 0,
    0, 2, 0, 0, 0, 0x20, 0x4e, 0, 0, 3, 0, 0, 0,
];

/// The next transaction, and the oldest interesting, active and snapshot ones.
type Numbers = (u32, u32, u32, u32);

/// The header of a minor version with these numbers.
fn header(minor: u16, numbers: Numbers) -> Header {
    let (next, oit, oat, ost) = numbers;
    Header {
        minor,
        next: TxNo(next),
        oit: TxNo(oit),
        oat: TxNo(oat),
        ost: TxNo(ost),
        last_tip: PageNo(2),
        interval: 20_000,
        catalog: PageNo(3),
    }
}

/// The header page of a header, with 1024 bytes.
fn page_of(header: &Header) -> [u8; 1024] {
    let mut page = [0u8; 1024];
    new_common(&mut page, PageNo(0), HEADER_KIND, 0, 0);
    write_header(&mut page, header);
    page
}

/// The header page of a header, with 4096 bytes.
fn large_page_of(header: &Header) -> [u8; 4096] {
    let mut page = [0u8; 4096];
    new_common(&mut page, PageNo(0), HEADER_KIND, 0, 0);
    write_header(&mut page, header);
    page
}

/// Tells whether a new header has the bytes of the format, and is read of them.
fn is_new_stored(new: &Header) -> bool {
    let page = large_page_of(new);
    has_bytes(&page, 16, &NEW_DATABASE)
        && is_zero_from(&page, 56)
        && read_header(&page, 4096) == Ok(*new)
}

/// Tells whether a header of the second minor version is read and not opened.
fn is_read_alone(second: &Header) -> bool {
    let page = page_of(second);
    let fault = fault_of(Field::Minor, 1, None);
    read_header(&page, 1024) == Ok(*second) && open_header(&page, 1024) == Err(fault)
}

#[test]
fn a_new_header_has_the_bytes_of_the_format_and_the_second_minor_version_is_not_opened(
    rt: HostRuntime,
) {
    assert!(rt; is_new_stored(&header(0, (1, 1, 1, 1))));
    assert!(rt; is_read_alone(&header(1, (900, 17, 40, 30))));
}

/// The fault of a field: damage, or that the file is no database where nothing is wanted there.
fn fault_of(field: Field, found: u64, wanted: Option<u64>) -> HeadFault {
    match wanted {
        Some(wanted) => HeadFault::Damaged(Damaged {
            page: PageNo(0),
            field,
            found,
            wanted,
        }),
        None => HeadFault::NotADatabase { field, found },
    }
}

/// Tells whether a page is refused for a field.
fn is_refused(page: &[u8; 1024], field: Field, found: u64, wanted: Option<u64>) -> bool {
    read_header(page, 1024) == Err(fault_of(field, found, wanted))
}

/// Numbers of which one is out of order; the field that is told, that number and the wanted one.
struct Unordered(Numbers, Field, u64, u64);

impl Case for Unordered {
    fn holds(&self, _alloc: Global) -> Result<bool, Fail> {
        let page = page_of(&header(0, self.0));
        Ok(is_refused(&page, self.1, self.2, Some(self.3)))
    }
}

/// A number out of order is named with the nearest lawful one.
const UNORDERED: &[Unordered] = &[
    Unordered((0, 1, 1, 1), Field::Next, 0, 1),
    Unordered(
        (1_000_000_001, 1, 1, 1),
        Field::Next,
        1_000_000_001,
        1_000_000_000,
    ),
    Unordered((7, 0, 1, 1), Field::Oit, 0, 1),
    Unordered((7, 8, 7, 7), Field::Oit, 8, 7),
    Unordered((7, 4, 3, 4), Field::Oat, 3, 4),
    Unordered((7, 4, 8, 4), Field::Oat, 8, 7),
    Unordered((7, 4, 6, 3), Field::Ost, 3, 4),
    Unordered((7, 4, 6, 7), Field::Ost, 7, 6),
];

/// A byte that is put at a place; then the field that is told, and the numbers found and wanted:
/// none is wanted of a file that is no database. From the last field of a database to the first, and
/// then so of what tells a database, so that each stands before those that differ already.
struct Broken(usize, u8, Field, u64, Option<u64>);

impl Step<[u8; 1024]> for Broken {
    fn goes(&self, on: &mut [u8; 1024]) -> bool {
        put_byte(on, self.0, self.1);
        is_refused(on, self.2, self.3, self.4)
    }
}

/// The first field that differs is named.
const BROKEN: &[Broken] = &[
    Broken(28, 0, Field::Next, 0, Some(1)),
    Broken(12, 1, Field::Sequence, 1, Some(0)),
    Broken(8, 1, Field::Owner, 1, Some(0)),
    Broken(4, 1, Field::Own, 1, Some(0)),
    Broken(3, 1, Field::Zero, 256, Some(0)),
    Broken(1, 1, Field::Flags, 1, Some(0)),
    Broken(0, 2, Field::Kind, 2, Some(1)),
    Broken(25, 8, Field::PageSize, 2048, None),
    Broken(22, 2, Field::Minor, 2, None),
    Broken(20, 2, Field::Major, 2, None),
    Broken(16, 0, Field::Magic, 0x4244_4700, None),
];

#[test]
fn the_first_field_that_differs_and_a_number_out_of_order_are_named(
    rt: HostRuntime,
) -> Result<(), Fail> {
    hold_each(&rt, rt.alloc(), UNORDERED)?;
    go_each(&rt, &mut page_of(&header(0, (1, 1, 1, 1))), BROKEN);
    Ok(())
}
