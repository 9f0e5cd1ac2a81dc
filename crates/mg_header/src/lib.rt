//! The header page: what the database is, and the numbers that bound its transactions.
//! It reads and writes these fields on a page that the caller lends, and takes no memory.
//!
//! Owns: page 0, of kind 1, a record of fields.
//!
//! | at | width | field | in a new database |
//! |---|---|---|---|
//! | 0 | 16 | common part | |
//! | 16 | 4 | the bytes `MGDB` | 4d 47 44 42 |
//! | 20 | 2 | major version of the format | 1 |
//! | 22 | 2 | minor version, 0 or 1 (a database of version 1 is read here, and not opened) | 0 |
//! | 24 | 4 | page size in bytes | P |
//! | 28 | 4 | next transaction | 1 |
//! | 32 | 4 | oldest interesting transaction (OIT) | 1 |
//! | 36 | 4 | oldest active transaction (OAT) | 1 |
//! | 40 | 4 | oldest snapshot transaction (OST) | 1 |
//! | 44 | 4 | page of the last transaction inventory page | 2 |
//! | 48 | 4 | sweep interval in transactions | 20000 |
//! | 52 | 4 | first pointer page of the catalog | 3 |
//!
//! Invariant: 1 <= OIT <= OST <= OAT <= next <= 1,000,000,000.
//! Below: `mg_base`, for fields, and the tests of a page. Above: `mg_txlist`, which draws
//! transaction numbers, and `mg_space`.
//! Not here: when the markers move, and where the named pages lie.
#![tactic(auto)]

mod header;
mod reading;
mod writing;

pub use header::{
    CATALOG_AT, GREATEST_MINOR, GREATEST_NEXT, HEADER_END, HEADER_KIND, HeadFault, Header,
    INTERVAL_AT, LAST_TIP_AT, MAGIC, MAGIC_AT, MAJOR, MAJOR_AT, MINOR_AT, NEXT_AT, OAT_AT, OIT_AT,
    OPENED_MINOR, OST_AT, PAGE_SIZE_AT,
};
pub use reading::{open_header, read_header};
pub use writing::write_header;
