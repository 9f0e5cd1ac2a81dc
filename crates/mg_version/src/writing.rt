//! A cell becomes bytes.

ghost use Rattle.std.specs.Prelude.{◌≡◌, ◌≤◌, ◌<◌, ◌^◌, ◌++◌, [], ◌∷◌, false, length, IfSome, take, OnOk, OnErr};
ghost use Rattle.mg_version.specs.Cells.{AreBytes, IsCell, IsLink, IsSpelling, IsVersion, IsWritable, back_bytes, cell_bytes, flags_of, head_bytes, link_bytes};

use crate::{ANCHOR, Cell, DELETED, HAS_BACK, LINK_LEN, Link, VERSION, Version};
use mg_base::Memory;

/// Appends the spelling of a cell.
///
/// # Errors
///
/// `Memory`: then `out` is as before.
pub fn write_cell(c: &Cell, out: &mut Vec<u8>) -> Result<(), Memory>
    requires { IsWritable c.now }
    ensures written { OnOk result (out.new.items ≡ out.old.items ++ cell_bytes c.now) }
    ensures read_again { OnOk result (IsSpelling (cell_bytes c.now) c.now) }
    ensures kept { OnErr result (out.new.items ≡ out.old.items) }
{
    let before = out.len();
    match append_cell(c, out) {
        Ok(()) => Ok(()),
        Err(fault) => {
            out.truncate(before);
            Err(fault)
        }
    }
}

/// Appends the spelling of a cell, or a front of it where memory runs out.
#[tactic(auto, unfolding(crate::specs::Cells::cell_bytes))]
fn append_cell(c: &Cell, out: &mut Vec<u8>) -> Result<(), Memory>
    requires { IsWritable c.now }
    ensures fits { OnOk result (IsCell c.now) }
    ensures written { OnOk result (out.new.items ≡ out.old.items ++ cell_bytes c.now) }
    ensures front { take (length out.old.items) out.new.items ≡ out.old.items }
{
    match c {
        Cell::Anchor(link) => append_anchor(link, out),
        Cell::Version(version) => append_version(version, out),
    }
}

fn append_anchor(link: &Link, out: &mut Vec<u8>) -> Result<(), Memory>
    ensures fits { OnOk result (IsLink link.now) }
    ensures written { OnOk result (out.new.items ≡ out.old.items ++ ANCHOR ∷ link_bytes link.now) }
    ensures front { take (length out.old.items) out.new.items ≡ out.old.items }
{
    out.push(ANCHOR)?;
    out.extend_from_slice(&link_array(link))?;
    Ok(())
}

fn append_version(version: &Version, out: &mut Vec<u8>) -> Result<(), Memory>
    requires { (version.now.primary ≡ false) × (1 ≤ version.now.format) }
    ensures fits { OnOk result (IsVersion version.now) }
    ensures written { OnOk result (out.new.items ≡ out.old.items
        ++ (head_bytes version.now ++ back_bytes version.now.back ++ version.now.body)) }
    ensures front { take (length out.old.items) out.new.items ≡ out.old.items }
{
    out.extend_from_slice(&head_array(version))?;
    append_back(version.back, out)?;
    append_row(version.body.as_slice(), out)?;
    Ok(())
}

fn append_row(row: &[u8], out: &mut Vec<u8>) -> Result<(), Memory>
    ensures written { OnOk result (out.new.items ≡ out.old.items ++ row.now) }
    ensures fits { AreBytes row.now }
    ensures kept { OnErr result (out.new.items ≡ out.old.items) }
{
    out.extend_from_slice(row)?;
    Ok(())
}

fn append_back(back: Option<Link>, out: &mut Vec<u8>) -> Result<(), Memory>
    ensures written { OnOk result (out.new.items ≡ out.old.items ++ back_bytes back) }
    ensures fits { OnOk result (IfSome back IsLink) }
    ensures kept { OnErr result (out.new.items ≡ out.old.items) }
{
    if let Some(link) = back {
        out.extend_from_slice(&link_array(&link))?;
    }
    Ok(())
}

/// A version's kind, flags, format and transaction.
fn head_array(version: &Version) -> [u8; 8]
    ensures bytes { result ≡ head_bytes version.now }
    ensures format { version.now.format < 2 ^ 16 }
    ensures tx { version.now.tx.0 < 2 ^ 32 }
{
    let flags = flags(version.deleted, version.back);
    let format = version.format.to_le_bytes();
    let tx = version.tx.0.to_le_bytes();
    [
        VERSION, flags, format[0], format[1], tx[0], tx[1], tx[2], tx[3],
    ]
}

fn flags(deleted: bool, back: Option<Link>) -> u8
    ensures { result ≡ flags_of deleted back }
{
    let deleted_flag = if deleted { DELETED } else { 0 };
    let back_flag = if back.is_some() { HAS_BACK } else { 0 };
    deleted_flag + back_flag
}

fn link_array(link: &Link) -> [u8; LINK_LEN]
    ensures bytes { result ≡ link_bytes link.now }
    ensures fits { IsLink link.now }
{
    let page = link.rec.page.0.to_le_bytes();
    let slot = link.rec.slot.to_le_bytes();
    let tx = link.tx.0.to_le_bytes();
    [
        page[0], page[1], page[2], page[3], slot[0], slot[1], tx[0], tx[1], tx[2], tx[3],
    ]
}
