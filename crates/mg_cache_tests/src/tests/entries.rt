//! Entries of index pages.

ghost use Rattle.std.specs.Prelude.{◌≡◌, IfOk, length};

use mg_base::{Bytes, Memory, PageNo, RecId};
use mg_node::Entry;
use std::alloc::Global;

/// The entry of a key of so many equal bytes, and a slot of a page.
pub fn entry_of(alloc: Global, byte: u8, len: usize, page: u32, slot: u16) -> Result<Entry, Memory>
    ensures child { IfOk result (λ e. e.child.0 ≡ 0) }
    ensures len { IfOk result (λ e. length e.key ≡ len) }
{
    Ok(Entry {
        key: Bytes::new(vec![in alloc; byte; len]?),
        rec: RecId {
            page: PageNo(page),
            slot,
        },
        child: PageNo(0),
    })
}
