//! A header page is tested and read.

ghost use Rattle.std.specs.Prelude.{◌≡◌, ◌≤◌, length};
ghost use Rattle.mg_base.specs.Checks.{verdict};
ghost use Rattle.mg_header.specs.HeaderPage.{file_checks, header_in, marker_checks, nearest as nearest_number, page_checks, reading, reading_upto, the_page};

use crate::{
    CATALOG_AT, GREATEST_MINOR, GREATEST_NEXT, HEADER_END, HEADER_KIND, HeadFault, Header,
    INTERVAL_AT, LAST_TIP_AT, MAGIC, MAGIC_AT, MAJOR, MAJOR_AT, MINOR_AT, NEXT_AT, OAT_AT, OIT_AT,
    OPENED_MINOR, OST_AT, PAGE_SIZE_AT,
};
use mg_base::{Damaged, Field, PageNo, TxNo, check_common, check_field, get_u16, get_u32};

/// The number of the header page.
const PAGE: PageNo = PageNo(0);

/// Reads the header page of a database with this page size, in bytes, of each version of the format.
///
/// # Errors
///
/// - `NotADatabase` at the first of these that differs: the bytes `MGDB`, major version, minor
///   version, page size.
/// - `Damaged` at the first field that differs behind them: those of the common part, then the next
///   transaction, OIT, OAT and OST, each judged by those before it.
pub fn read_header(b: &[u8], size: u32) -> Result<Header, HeadFault>
    requires { HEADER_END ≤ length b.now }
    ensures { result ≡ reading_upto b.now GREATEST_MINOR size }
{
    read_upto(b, GREATEST_MINOR, size)
}

/// Reads the header page of a database that is opened, with this page size, in bytes: one of minor version 0.
///
/// # Errors
///
/// As `read_header`; `NotADatabase` at the minor version where it is 1, too.
pub fn open_header(b: &[u8], size: u32) -> Result<Header, HeadFault>
    requires { HEADER_END ≤ length b.now }
    ensures { result ≡ reading b.now size }
{
    read_upto(b, OPENED_MINOR, size)
}

/// Reads the header page of a database of a minor version up to one.
///
/// # Errors
///
/// As `read_header`.
fn read_upto(b: &[u8], minor: u16, size: u32) -> Result<Header, HeadFault>
    requires { HEADER_END ≤ length b.now }
    ensures { result ≡ reading_upto b.now minor size }
{
    if let Err(damage) = check_file(b, minor, size) {
        return Err(HeadFault::NotADatabase {
            field: damage.field,
            found: damage.found,
        });
    }
    if let Err(damage) = check_page(b) {
        return Err(HeadFault::Damaged(damage));
    }
    Ok(header_of(b))
}

/// Tests what tells a file of another kind, or of a minor version above one.
#[tactic(auto, unfolding(crate::specs::HeaderPage::file_checks))]
fn check_file(b: &[u8], most: u16, size: u32) -> Result<(), Damaged>
    requires { HEADER_END ≤ length b.now }
    ensures { result ≡ verdict the_page (file_checks b.now most size) }
{
    let minor = get_u16(b, MINOR_AT);
    let lawful_minor = minor.min(most);
    check_field(PAGE, Field::Magic, get_u32(b, MAGIC_AT), MAGIC)?;
    check_field(
        PAGE,
        Field::Major,
        u32::from(get_u16(b, MAJOR_AT)),
        u32::from(MAJOR),
    )?;
    check_field(
        PAGE,
        Field::Minor,
        u32::from(minor),
        u32::from(lawful_minor),
    )?;
    check_field(PAGE, Field::PageSize, get_u32(b, PAGE_SIZE_AT), size)
}

/// Tests the common part, and then the numbers of transactions.
fn check_page(b: &[u8]) -> Result<(), Damaged>
    requires { HEADER_END ≤ length b.now }
    ensures { result ≡ verdict the_page (page_checks b.now) }
{
    check_common(b, PAGE, HEADER_KIND, 0, 0)?;
    check_markers(b)
}

/// Tests the numbers of transactions.
#[tactic(auto, unfolding(crate::specs::HeaderPage::marker_checks))]
fn check_markers(b: &[u8]) -> Result<(), Damaged>
    requires { HEADER_END ≤ length b.now }
    ensures { result ≡ verdict the_page (marker_checks b.now) }
{
    let next = get_u32(b, NEXT_AT);
    let oit = get_u32(b, OIT_AT);
    let oat = get_u32(b, OAT_AT);
    let ost = get_u32(b, OST_AT);
    check_field(PAGE, Field::Next, next, nearest(1, GREATEST_NEXT, next))?;
    check_field(PAGE, Field::Oit, oit, nearest(1, next, oit))?;
    check_field(PAGE, Field::Oat, oat, nearest(oit, next, oat))?;
    check_field(PAGE, Field::Ost, ost, nearest(oit, oat, ost))
}

/// The number from `low` to `high` that is nearest to `number`.
fn nearest(low: u32, high: u32, number: u32) -> u32
    ensures { result ≡ nearest_number low high number }
{
    number.min(high).max(low)
}

/// The fields of a header page.
fn header_of(b: &[u8]) -> Header
    requires { HEADER_END ≤ length b.now }
    ensures { result ≡ header_in b.now }
{
    Header {
        minor: get_u16(b, MINOR_AT),
        next: TxNo(get_u32(b, NEXT_AT)),
        oit: TxNo(get_u32(b, OIT_AT)),
        oat: TxNo(get_u32(b, OAT_AT)),
        ost: TxNo(get_u32(b, OST_AT)),
        last_tip: PageNo(get_u32(b, LAST_TIP_AT)),
        interval: get_u32(b, INTERVAL_AT),
        catalog: PageNo(get_u32(b, CATALOG_AT)),
    }
}
