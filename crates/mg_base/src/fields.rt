//! The fields of a page: unsigned numbers, little-endian.

ghost use Rattle.std.specs.Prelude.{◌≡◌, ◌+◌, ◌≤◌, ◌<◌, length};
ghost use Rattle.mg_base.specs.Fields.{u16_at, u32_at, with_u16, with_u32, new_page};

use crate::PageNo;

/// Where the common part names the kind of the page, width 1.
pub const KIND_AT: usize = 0;
/// Where the common part has the flags, width 1, always 0.
pub const FLAGS_AT: usize = 1;
/// Where the common part has two zero bytes.
pub const ZERO_AT: usize = 2;
/// Where a page names its own number, width 4.
pub const OWN_AT: usize = 4;
/// Where a page names its owner, width 4: the first pointer page of its table, or 0.
pub const OWNER_AT: usize = 8;
/// Where a page has its sequence, width 4.
pub const SEQUENCE_AT: usize = 12;
/// The length of the common part.
pub const COMMON: usize = 16;

/// The field of two bytes at `at`, little-endian.
pub fn get_u16(b: &[u8], at: usize) -> u16
    requires { at + 2 ≤ length b.now }
    ensures { result ≡ u16_at b.now at }
{
    u16::from_le_bytes([b[at], b[at + 1]])
}

/// The field of four bytes at `at`, little-endian.
pub fn get_u32(b: &[u8], at: usize) -> u32
    requires { at + 4 ≤ length b.now }
    ensures { result ≡ u32_at b.now at }
{
    u32::from_le_bytes([b[at], b[at + 1], b[at + 2], b[at + 3]])
}

/// Sets the field of two bytes at `at`, little-endian.
pub fn put_u16(b: &mut [u8], at: usize, v: u16)
    requires { at + 2 ≤ length b.old }
    ensures { b.new ≡ with_u16 b.old at v }
{
    let bytes = v.to_le_bytes();
    b[at] = bytes[0];
    b[at + 1] = bytes[1];
}

/// Sets the field of four bytes at `at`, little-endian.
pub fn put_u32(b: &mut [u8], at: usize, v: u32)
    requires { at + 4 ≤ length b.old }
    ensures { b.new ≡ with_u32 b.old at v }
{
    let bytes = v.to_le_bytes();
    b[at] = bytes[0];
    b[at + 1] = bytes[1];
    b[at + 2] = bytes[2];
    b[at + 3] = bytes[3];
}

/// Makes `b` a page with this common part and nothing else: every other byte is 0.
///
/// `owner` is the number of the table's first pointer page, or 0 for a page of no table.
/// Source: Firebird ODS, the header of every page (`pag`).
pub fn new_common(b: &mut [u8], page: PageNo, kind: u8, owner: u32, seq: u32)
    requires { 16 ≤ length b.old }
    ensures { b.new ≡ new_page (length b.old) page.0 kind owner seq }
{
    b.fill(0);
    b[KIND_AT] = kind;
    put_u32(b, OWN_AT, page.0);
    put_u32(b, OWNER_AT, owner);
    put_u32(b, SEQUENCE_AT, seq);
}
