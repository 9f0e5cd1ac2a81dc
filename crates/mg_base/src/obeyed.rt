//! The record of a disk in memory: the page writes that it obeyed.

ghost use Rattle.std.specs.Prelude.{◌≡◌, ◌<◌, IfOk, replicate, length, slice_set, false};
ghost use Rattle.std.proofs.Common.{get_or};
ghost use Rattle.mg_base.specs.Image.{blank, page_at};
ghost use Rattle.mg_base.specs.declared.obeyed.Obeyed.{Obeyed};

use crate::{Bytes, Memory};
use std::alloc::Global;

/// A page write that was obeyed.
#[derive(Drop)]
pub struct Obeyed {
    pub page: u32,
    /// Whether the disk was settled since the page write before.
    pub settled: bool,
    pub bytes: Bytes,
}

/// So many blank pages.
pub fn blank_pages(alloc: Global, size: u32, room: u32) -> Result<Vec<Bytes>, Memory>
    ensures { IfOk result (λ v. v.items ≡ replicate room (blank size)) }
{
    let mut pages = Vec::with_capacity(alloc, room as usize)?;
    for _ in 0..room {
        pages.push(Bytes::zeroed(alloc, size as usize)?)?;
    }
    Ok(pages)
}

/// So many flags, none of them set.
pub fn blank_flags(alloc: Global, room: u32) -> Result<Vec<bool>, Memory>
    ensures { IfOk result (λ v. v.items ≡ replicate room false) }
{
    Ok(vec![in alloc; false; room as usize]?)
}

/// Room for so many page writes.
pub fn blank_record(alloc: Global, size: u32, writes: u32) -> Result<Vec<Obeyed>, Memory>
    ensures { IfOk result (λ v. v.items ≡ replicate writes (record { page = 0; settled = false; bytes = blank size })) }
{
    let mut obeyed = Vec::with_capacity(alloc, writes as usize)?;
    for _ in 0..writes {
        obeyed.push(Obeyed {
            page: 0,
            settled: false,
            bytes: Bytes::zeroed(alloc, size as usize)?,
        })?;
    }
    Ok(obeyed)
}

/// Puts a page in its place.
pub fn put_page(pages: &mut Vec<Bytes>, at: usize, bytes: &[u8])
    requires below { at < length pages.old.items }
    requires whole { length (page_at (length bytes.now) pages.old.items at) ≡ length bytes.now }
    ensures { pages.new.items ≡ slice_set pages.old.items at bytes.now }
{
    let page = &mut pages[at];
    page.overwrite(bytes);
}

/// Puts a page write into the record, in place of what stood there.
pub fn put_obeyed(obeyed: &mut Vec<Obeyed>, at: usize, page: u32, settled: bool, bytes: &[u8])
    requires below { at < length obeyed.old.items }
    requires whole { (d : Obeyed) → length (get_or obeyed.old.items at d).bytes ≡ length bytes.now }
    ensures { obeyed.new.items ≡ slice_set obeyed.old.items at (record { page = page; settled = settled; bytes = bytes.now }) }
{
    let entry = &mut obeyed[at];
    entry.page = page;
    entry.settled = settled;
    entry.bytes.overwrite(bytes);
}
