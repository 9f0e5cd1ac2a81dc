//! Versions and anchors become the bytes of cells.

ghost use Rattle.std.specs.Prelude.{◌≡◌, ◌≤◌, ◌+◌, false, IfOk, length};
ghost use Rattle.mg_version.specs.Cells.{IsSpelling};
ghost use Rattle.mg_version.specs.declared.cell.Cell.TheVariants as cells;
ghost use Rattle.mg_chain.specs.Writing.{leading_to};

use mg_base::Memory;
use mg_version::{Cell, Link, Version, write_cell};
use std::alloc::Global;

/// The bytes of a version that has this one before it, or none.
///
/// # Errors
///
/// `Memory` only.
pub(crate) fn version_bytes(
    alloc: Global,
    v: &Version,
    back: Option<Link>,
) -> Result<Vec<u8>, Memory>
    requires apart { v.now.primary ≡ false }
    requires stored { 1 ≤ v.now.format }
    ensures spells { IfOk result
        (λ b. IsSpelling b.items (cells.Version (leading_to v.now back))) }
    ensures short { IfOk result (λ b. length b.items ≤ length v.now.body + 18) }
{
    let cell = Cell::Version(Version {
        primary: v.primary,
        deleted: v.deleted,
        format: v.format,
        tx: v.tx,
        back,
        body: v.body.copy(alloc)?,
    });
    let mut out = Vec::new(alloc);
    write_cell(&cell, &mut out)?;
    Ok(out)
}

/// The bytes of an anchor.
///
/// # Errors
///
/// `Memory` only.
pub(crate) fn anchor_bytes(alloc: Global, link: Link) -> Result<Vec<u8>, Memory>
    ensures spells { IfOk result (λ b. IsSpelling b.items (cells.Anchor link)) }
    ensures len { IfOk result (λ b. length b.items ≡ 11) }
{
    let mut out = Vec::new(alloc);
    write_cell(&Cell::Anchor(link), &mut out)?;
    Ok(out)
}
