//! Bytes become a cell.

ghost use Rattle.std.specs.Prelude.{◌≡◌, ◌<◌, ◌≤◌, ◌+◌, ◌^◌, ◌⊎◌, ℕ, Ok, Err, drop, length, MatchOption, MatchResult, IfOk, IfErr};
ghost use Rattle.mg_base.specs.Fields.{byte};
ghost use Rattle.mg_version.specs.Cells.{CausesFault, IsSpelling, RefusesCell};
ghost use Rattle.mg_version.specs.CellReading.{HasVersionHead, back_in, body_at as body_place, link_in};

use crate::{
    ANCHOR, ANCHOR_LEN, BACK_AT, BODY_AFTER_BACK, Cell, CellFault, DELETED, FLAGS_AT, FORMAT_AT,
    HAS_BACK, KIND_AT, LINK_LEN, Link, NEWEST_AT, TX_AT, VERSION, Version,
};
use mg_base::{Bytes, PageNo, RecId, TxNo, get_u16, get_u32};
use std::alloc::{AllocError, Global};

/// Reads the cell that the bytes spell, all of the bytes.
///
/// # Errors
///
/// - `BadCell`, exactly where the bytes are no cell's spelling: `at` is the length of their longest
///   prefix with which some cell's spelling begins.
/// - `Memory`, where they are a version.
pub fn read_cell(alloc: Global, b: &[u8]) -> Result<Cell, CellFault>
    requires { length b.now < 2 ^ 31 }
    ensures spelled { IfOk result (λ cell. IsSpelling b.now cell) }
    ensures refused { IfErr result (λ fault. CausesFault b.now fault) }
    ensures only { (cell : Cell) → IsSpelling b.now cell
        → (result ≡ Ok cell) ⊎ (result ≡ Err CellFault.Memory) }
{
    match byte_at(b, KIND_AT) {
        ANCHOR => Ok(Cell::Anchor(read_anchor(b)?)),
        VERSION => Ok(Cell::Version(read_version(alloc, b)?)),
        _ => Err(CellFault::BadCell { at: 0 }),
    }
}

/// Reads an anchor, whose first byte is there.
fn read_anchor(b: &[u8]) -> Result<Link, CellFault>
    requires short { length b.now < 2 ^ 31 }
    requires kind { byte b.now KIND_AT ≡ ANCHOR }
    ensures { MatchResult result (λ link. IsSpelling b.now (Cell.Anchor link))
        (λ fault. CausesFault b.now fault) }
{
    if b.len() < ANCHOR_LEN {
        return Err(CellFault::BadCell { at: b.len() as u32 });
    }
    if b.len() > ANCHOR_LEN {
        return Err(CellFault::BadCell {
            at: ANCHOR_LEN as u32,
        });
    }
    Ok(link_at(b, NEWEST_AT))
}

/// Reads a version, whose first byte is there.
fn read_version(alloc: Global, b: &[u8]) -> Result<Version, CellFault>
    requires short { length b.now < 2 ^ 31 }
    requires kind { byte b.now KIND_AT ≡ VERSION }
    ensures { MatchResult result (λ v. IsSpelling b.now (Cell.Version v))
        (λ fault. CausesFault b.now fault) }
{
    match head_fault(b) {
        Some(at) => Err(CellFault::BadCell { at }),
        None => version_at(alloc, b),
    }
}

/// Tells where the fields before a version's packed row are refused.
fn head_fault(b: &[u8]) -> Option<u32>
    requires short { length b.now < 2 ^ 31 }
    requires kind { byte b.now KIND_AT ≡ VERSION }
    ensures { MatchOption result (HasVersionHead b.now) (λ at. RefusesCell b.now at) }
{
    if byte_at(b, FLAGS_AT) > DELETED + HAS_BACK {
        return Some(FLAGS_AT as u32);
    }
    if b.len() >= TX_AT && get_u16(b, FORMAT_AT) == 0 {
        return Some(FORMAT_AT as u32 + 1);
    }
    if b.len() < body_at(b) {
        return Some(b.len() as u32);
    }
    None
}

/// The byte at a place, 0 where the bytes end before it.
fn byte_at(b: &[u8], at: usize) -> u8
    ensures { result ≡ byte b.now at }
{
    b.get(at).copied().unwrap_or(0)
}

/// Where the packed row of a version begins.
fn body_at(b: &[u8]) -> usize
    ensures { result ≡ body_place b.now }
{
    if byte_at(b, FLAGS_AT) < HAS_BACK {
        BACK_AT
    } else {
        BODY_AFTER_BACK
    }
}

/// The version of bytes whose fields before the packed row are in order.
fn version_at(alloc: Global, b: &[u8]) -> Result<Version, CellFault>
    requires kind { byte b.now KIND_AT ≡ VERSION }
    requires head { HasVersionHead b.now }
    ensures { MatchResult result (λ v. IsSpelling b.now (Cell.Version v))
        (λ fault. CausesFault b.now fault) }
{
    Ok(Version {
        primary: false,
        deleted: byte_at(b, FLAGS_AT) % 2 == DELETED,
        format: get_u16(b, FORMAT_AT),
        tx: TxNo(get_u32(b, TX_AT)),
        back: back_of(b),
        body: rest_of(alloc, b, body_at(b))?,
    })
}

/// The bytes from a place on.
#[tactic(auto, using(std::proofs::lemmas::List::take_rest))]
fn rest_of(alloc: Global, b: &[u8], at: usize) -> Result<Bytes, AllocError>
    requires { at ≤ length b.now }
    ensures { IfOk result (λ rest. rest ≡ drop at b.now) }
{
    Ok(Bytes::new(Vec::from_slice(alloc, &b[at..])?))
}

/// The back pointer of a version, where it has one.
fn back_of(b: &[u8]) -> Option<Link>
    requires { body_place b.now ≤ length b.now }
    ensures { result ≡ back_in b.now }
{
    if byte_at(b, FLAGS_AT) < HAS_BACK {
        None
    } else {
        Some(link_at(b, BACK_AT))
    }
}

/// The link at a place.
fn link_at(b: &[u8], at: usize) -> Link
    requires { at + LINK_LEN ≤ length b.now }
    ensures { result ≡ link_in b.now at }
{
    let page = PageNo(get_u32(b, at));
    let slot = get_u16(b, at + 4);
    Link {
        rec: RecId { page, slot },
        tx: TxNo(get_u32(b, at + 6)),
    }
}
