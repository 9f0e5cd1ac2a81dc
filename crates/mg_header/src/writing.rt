//! The fields of a header page are written.

ghost use Rattle.std.specs.Prelude.{◌≡◌, ◌≤◌, ◌<◌, ◌^◌, Ok, length};
ghost use Rattle.mg_header.specs.HeaderPage.{AreMarkers, WritesHeader, reading};
ghost use Rattle.mg_base.specs.Checks.{PassesAll, common_checks};

use crate::{
    CATALOG_AT, HEADER_END, HEADER_KIND, Header, INTERVAL_AT, LAST_TIP_AT, MAGIC, MAGIC_AT, MAJOR,
    MAJOR_AT, MINOR_AT, NEXT_AT, OAT_AT, OIT_AT, OPENED_MINOR, OST_AT, PAGE_SIZE_AT,
};
use mg_base::{put_u16, put_u32};

/// Writes the fields of a header page: those of `h`, and that the file is a database of this format
/// with pages as long as `b`. The common part stays, and so does what lies behind the fields.
///
/// Careful write: a page with a version or a state of a transaction is written after the header
/// whose next transaction lies above it; the pages that the header names are written before it. The
/// caller adds these orders to its batch.
pub fn write_header(b: &mut [u8], h: &Header)
    requires least { HEADER_END ≤ length b.old }
    requires most { length b.old < 2 ^ 32 }
    ensures written { WritesHeader b.old b.new h.now }
    ensures read_again { h.now.minor ≤ OPENED_MINOR
        → AreMarkers h.now.oit.0 h.now.ost.0 h.now.oat.0 h.now.next.0
        → PassesAll (common_checks b.old 0 HEADER_KIND 0 0)
        → reading b.new (length b.old) ≡ Ok h.now }
{
    let size = b.len() as u32;
    put_u32(b, MAGIC_AT, MAGIC);
    put_u16(b, MAJOR_AT, MAJOR);
    put_u16(b, MINOR_AT, h.minor);
    put_u32(b, PAGE_SIZE_AT, size);
    put_u32(b, NEXT_AT, h.next.0);
    put_u32(b, OIT_AT, h.oit.0);
    put_u32(b, OAT_AT, h.oat.0);
    put_u32(b, OST_AT, h.ost.0);
    put_u32(b, LAST_TIP_AT, h.last_tip.0);
    put_u32(b, INTERVAL_AT, h.interval);
    put_u32(b, CATALOG_AT, h.catalog.0);
}
