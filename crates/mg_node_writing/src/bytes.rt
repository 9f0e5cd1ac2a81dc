//! Bytes and entries that are put at a place of a page.

ghost use Rattle.std.specs.Prelude.{◌≡◌, ◌+◌, ◌≤◌, ◌^◌, ◌<◌, length};
ghost use Rattle.mg_node_writing.specs.Moves.{Puts, PutsEntry, WritesFront, entry_len as entry_len_of};

use mg_base::{PageNo, RecId, put_u16, put_u32};
use mg_node::{CHILD_LEN, Entry, KEY_AT, RECORD_LEN};

/// Moves bytes within a page.
pub(crate) fn move_bytes(b: &mut [u8], from: usize, to: usize, len: usize)
    requires from { from + len ≤ length b.old }
    requires to { to + len ≤ length b.old }
    ensures { Puts b.old b.old b.new from to len }
{
    b.copy_within(from..from + len, to);
}

/// Writes bytes at a place.
fn put_bytes(b: &mut [u8], at: usize, bytes: &[u8])
    requires { at + length bytes.now ≤ length b.old }
    ensures { Puts bytes.now b.old b.new 0 at (length bytes.now) }
{
    b[at..at + bytes.len()].copy_from_slice(bytes);
}

/// Copies bytes of another page.
pub(crate) fn copy_bytes(source: &[u8], from: usize, len: usize, b: &mut [u8], to: usize)
    requires from { from + len ≤ length source.now }
    requires to { to + len ≤ length b.old }
    ensures { Puts source.now b.old b.new from to len }
{
    let (_, rest) = source.split_at(from);
    let (bytes, _) = rest.split_at(len);
    put_bytes(b, to, bytes);
}

/// How many bytes an entry takes.
pub(crate) fn entry_len(e: &Entry, with_child: bool) -> usize
    requires { length e.now.key < 2 ^ 32 }
    ensures { result ≡ entry_len_of with_child e.now }
{
    let child = if with_child { CHILD_LEN } else { 0 };
    KEY_AT + RECORD_LEN + child + e.key.len()
}

/// A page's number as a field of four bytes has it.
fn number_of(page: PageNo) -> u32
    ensures { result ≡ page.0 }
{
    page.0
}

/// A record's slot as a field of two bytes has it.
fn slot_of(rec: RecId) -> u16
    ensures { result ≡ rec.slot }
{
    rec.slot
}

/// Puts an entry at a place, but for its child.
fn put_front(b: &mut [u8], at: usize, e: &Entry)
    requires short { length e.now.key < 65536 }
    requires inside { at + 8 + length e.now.key ≤ length b.old }
    ensures { WritesFront b.old b.new at e.now }
{
    let record_at = at + KEY_AT + e.key.len();
    let page = number_of(e.rec.page);
    let slot = slot_of(e.rec);
    put_u16(b, at, e.key.len() as u16);
    put_bytes(b, at + KEY_AT, e.key.as_slice());
    put_u32(b, record_at, page);
    put_u16(b, record_at + 4, slot);
}

/// Puts an entry at a place, with its child or without.
pub(crate) fn put_entry(b: &mut [u8], at: usize, e: &Entry, with_child: bool)
    requires short { length e.now.key < 65536 }
    requires inside { at + entry_len_of with_child e.now ≤ length b.old }
    ensures { PutsEntry with_child b.old b.new at e.now }
{
    let child_at = at + KEY_AT + e.key.len() + RECORD_LEN;
    put_front(b, at, e);
    if with_child {
        let child = number_of(e.child);
        put_u32(b, child_at, child);
    }
}
