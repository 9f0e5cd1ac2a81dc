//! The fields of the header page, and what can be wrong with them.

use mg_base::{Damaged, Field, PageNo, TxNo};

/// The kind of a header page.
pub const HEADER_KIND: u8 = 1;
/// The bytes `MGDB`, as a number.
pub const MAGIC: u32 = 0x4244_474d;
/// The one major version of the format.
pub const MAJOR: u16 = 1;
/// The greatest minor version of the format: from it on a table's shape may change.
pub const GREATEST_MINOR: u16 = 1;
/// The greatest minor version of a database that is opened: no statement changes a table's shape yet.
pub const OPENED_MINOR: u16 = 0;
/// The greatest number of a next transaction (chosen).
pub const GREATEST_NEXT: u32 = 1_000_000_000;

/// Where the bytes `MGDB` stand.
pub const MAGIC_AT: usize = 16;
/// Where the major version stands, width 2.
pub const MAJOR_AT: usize = 20;
/// Where the minor version stands, width 2.
pub const MINOR_AT: usize = 22;
/// Where the page size stands, width 4.
pub const PAGE_SIZE_AT: usize = 24;
/// Where the number of the next transaction stands, width 4.
pub const NEXT_AT: usize = 28;
/// Where the oldest interesting transaction stands, width 4.
pub const OIT_AT: usize = 32;
/// Where the oldest active transaction stands, width 4.
pub const OAT_AT: usize = 36;
/// Where the oldest snapshot transaction stands, width 4.
pub const OST_AT: usize = 40;
/// Where the page of the last transaction inventory page stands, width 4.
pub const LAST_TIP_AT: usize = 44;
/// Where the sweep interval stands, width 4.
pub const INTERVAL_AT: usize = 48;
/// Where the first pointer page of the catalog stands, width 4.
pub const CATALOG_AT: usize = 52;
/// Where the fields of the header end.
pub const HEADER_END: usize = 56;

// The numbers of the file format, written once more: a slip in one of them is refused.
const _: () = prove!(HEADER_KIND == 1);

const _: () = prove!(MAGIC == 0x4244_474d);

const _: () = prove!(MAJOR == 1);

const _: () = prove!(GREATEST_MINOR == 1);

const _: () = prove!(OPENED_MINOR == 0);

const _: () = prove!(GREATEST_NEXT == 1_000_000_000);

const _: () = prove!(MAGIC_AT == 16);

const _: () = prove!(MAJOR_AT == 20);

const _: () = prove!(MINOR_AT == 22);

const _: () = prove!(PAGE_SIZE_AT == 24);

const _: () = prove!(NEXT_AT == 28);

const _: () = prove!(OIT_AT == 32);

const _: () = prove!(OAT_AT == 36);

const _: () = prove!(OST_AT == 40);

const _: () = prove!(LAST_TIP_AT == 44);

const _: () = prove!(INTERVAL_AT == 48);

const _: () = prove!(CATALOG_AT == 52);

const _: () = prove!(HEADER_END == 56);

/// What a header page says (Firebird ODS, header page).
#[derive(Clone, Copy, Debug, PartialEq, Eq)]
pub struct Header {
    /// The minor version of the format.
    pub minor: u16,
    /// The number that the next transaction draws.
    pub next: TxNo,
    /// The oldest interesting transaction: each one before it is committed.
    pub oit: TxNo,
    /// The oldest active transaction.
    pub oat: TxNo,
    /// The oldest snapshot transaction: what it sees no transaction needs a version before.
    pub ost: TxNo,
    /// The page of the last transaction inventory page.
    pub last_tip: PageNo,
    /// How many transactions apart OIT and OST make a sweep due.
    pub interval: u32,
    /// The first pointer page of the catalog.
    pub catalog: PageNo,
}

/// Why a header page is not read.
#[derive(Clone, Copy, Debug, PartialEq, Eq)]
pub enum HeadFault {
    /// The file is of another format, version or page size.
    NotADatabase { field: Field, found: u64 },
    Damaged(Damaged),
}
