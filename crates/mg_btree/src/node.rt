//! An index page that a tree is asked for: read, tested, and on the level where it is wanted.

ghost use Rattle.std.specs.Prelude.{◌≡◌, ◌≤◌, ◌↔◌, IfErr, IfOk, IsOk, IsSome, MatchResult, length, OnOk, ◌<◌};
ghost use Rattle.mg_base.specs.Checks.{PassesAll};
ghost use Rattle.mg_base.specs.Image.{Image};
ghost use Rattle.mg_node.specs.NodePage.{IsNodePage, level_in, node_checks};
ghost use Rattle.mg_node.specs.NodeTests.{HasEnough};
ghost use Rattle.mg_pool.specs.Pool.{IsPool};
ghost use Rattle.mg_space.specs.Lawful.{readable};
ghost use Rattle.mg_space.specs.Taking.{IsGeometry};
ghost use Rattle.mg_space.specs.View.{AreWhole, Tells, viewed};
ghost use Rattle.mg_btree.specs.Reading.{IsNodeFrom, IsReadNode, Reads, RefusesBytes, RefusesContent, RefusesNode};

use mg_base::{Bytes, Damaged, Disk, Field, PageNo, check_field};
use mg_node::{Node, check_node, check_node_common, count, is_inner, level_of, read_node};
use mg_pool::Batch;
use mg_space::{Found, SpaceFault, Store, find_page, hold};
use std::alloc::Global;

/// An index page that was read.
#[derive(Drop)]
pub(crate) struct ReadNode {
    pub page: PageNo,
    pub bytes: Bytes,
    /// What the bytes say.
    pub node: Node,
}

/// Makes a page readable as one sees it who fills a batch: `lent` lends its bytes then. Nothing is copied.
///
/// # Errors
///
/// `Damaged` at `Presence` where the page is not there; else the cache's.
pub(crate) fn hold_page<D: Disk>(
    store: &mut Store<D>,
    batch: &Batch,
    page: PageNo,
) -> Result<(), SpaceFault>
    requires pool { IsPool D.meaning store.old }

    ensures reads { Reads D.meaning store.old store.new result }
    ensures held { OnOk result (IsSome (readable store.new batch.now.pages page.0)) }
    ensures seen { (image : Image) → Tells D.meaning store.old.disk image → IfErr result
        (RefusesBytes store.old.geometry.size (viewed store.old image batch.now page.0)) }
{
    hold(store, batch, page)
}

/// A copy of the bytes of a page as one sees them who fills a batch, for one who keeps them.
///
/// # Errors
///
/// As `hold_page`; else `Memory`.
fn bytes_of<D: Disk>(store: &mut Store<D>, batch: &Batch, page: PageNo) -> Result<Bytes, SpaceFault>
    requires pool { IsPool D.meaning store.old }
    requires whole { AreWhole store.old.geometry batch.now.pages }

    ensures reads { Reads D.meaning store.old store.new result }
    ensures len { IfOk result (λ b. length b ≡ store.old.geometry.size) }
    ensures below { OnOk result (page.0 < store.old.geometry.limit) }
    ensures seen { (image : Image) → Tells D.meaning store.old.disk image → MatchResult result
        (λ b. b ≡ viewed store.old image batch.now page.0)
        (RefusesBytes store.old.geometry.size (viewed store.old image batch.now page.0)) }
{
    match find_page(store, batch, page)? {
        Found::Page(bytes) => Ok(bytes),
        Found::Absent { pages } => Err(SpaceFault::Damaged(absence(page, pages))),
    }
}

/// Names a page that is not there, by the number of pages that are.
fn absence(page: PageNo, pages: u32) -> Damaged {
    Damaged {
        page,
        field: Field::Presence,
        found: u64::from(pages),
        wanted: u64::from(page.0) + 1,
    }
}

/// Tests the common part of an index page with this number and owner.
///
/// # Errors
///
/// `Damaged` at the first field that differs.
fn check_part(b: &[u8], page: PageNo, owner: u32) -> Result<(), Damaged>
    requires { 1024 ≤ length b.now }
    ensures { IsOk result ↔ PassesAll (node_checks b.now page.0 owner) }
{
    check_node_common(b, page, owner)
}

/// Tests the common part of an index page, and its level.
///
/// # Errors
///
/// `Damaged` at the first field that differs.
pub(crate) fn check_above(b: &[u8], page: PageNo, owner: u32, level: u16) -> Result<(), Damaged>
    requires { 1024 ≤ length b.now }
    ensures { IsOk result ↔ (PassesAll (node_checks b.now page.0 owner) × (level_in b.now ≡ level)) }
{
    check_part(b, page, owner)?;
    check_field(page, Field::Level, u32::from(level_of(b)), u32::from(level))
}

/// Tests that an inner page has two entries.
///
/// # Errors
///
/// `Damaged` at `Count`, wanted 2.
fn check_enough(b: &[u8], page: PageNo) -> Result<(), Damaged>
    requires { 1024 ≤ length b.now }
    ensures { IsOk result ↔ HasEnough b.now }
{
    if !is_inner(b) {
        return Ok(());
    }
    if count(b) < 2 {
        return Err(Damaged {
            page,
            field: Field::Count,
            found: count(b) as u64,
            wanted: 2,
        });
    }
    Ok(())
}

/// Tests of an index page whose content is lawful whether it has this number and owner, stands on this
/// level, and has enough entries there.
///
/// # Errors
///
/// `Damaged` at a field that differs, the count last.
fn check_as(b: &[u8], page: PageNo, owner: u32, level: u16) -> Result<(), Damaged>
    requires { 1024 ≤ length b.now }
    ensures { IsOk result ↔ (PassesAll (node_checks b.now page.0 owner) × HasEnough b.now
        × (level_in b.now ≡ level)) }
{
    check_above(b, page, owner, level)?;
    check_enough(b, page)
}

/// Names what is damaged of a page whose content is not lawful.
fn damage_of(b: &[u8], page: PageNo, owner: u32) -> Damaged
    requires least { 1024 ≤ length b.now }
    requires most { length b.now ≤ 16384 }
    requires not_lawful { IsNodePage b.now → ⊥ }
{
    match check_node(b, page, owner) {
        Err(damaged) => damaged,
        Ok(()) => unreachable!(),
    }
}

/// What the bytes of an index page of an owner on a level say.
///
/// # Errors
///
/// `Damaged` exactly where they are none; else `Memory`.
fn node_of(
    alloc: Global,
    b: &[u8],
    page: PageNo,
    owner: u32,
    level: u16,
) -> Result<Node, SpaceFault>
    requires least { 1024 ≤ length b.now }
    requires most { length b.now ≤ 16384 }
    ensures { MatchResult result (IsNodeFrom owner level page.0 b.now)
        (RefusesContent owner level page.0 b.now) }
{
    // The reading tests the content, so a second test only has to name what is damaged.
    let Some(node) = read_node(alloc, b)? else {
        return Err(SpaceFault::Damaged(damage_of(b, page, owner)));
    };
    check_as(b, page, owner, level)?;
    Ok(node)
}

/// Reads an index page of an owner on a level.
///
/// # Errors
///
/// `Damaged` exactly where the page is none; else the cache's.
pub(crate) fn node_on<D: Disk>(
    store: &mut Store<D>,
    batch: &Batch,
    owner: u32,
    page: PageNo,
    level: u16,
) -> Result<ReadNode, SpaceFault>
    requires pool { IsPool D.meaning store.old }
    requires geometry { IsGeometry store.old.geometry }
    requires whole { AreWhole store.old.geometry batch.now.pages }

    ensures reads { Reads D.meaning store.old store.new result }
    ensures read { IfOk result (IsReadNode store.old.geometry.size owner level page.0) }
    ensures below { OnOk result (page.0 < store.old.geometry.limit) }
    ensures seen { (image : Image) → Tells D.meaning store.old.disk image → MatchResult result
        (λ read. read.bytes ≡ viewed store.old image batch.now page.0)
        (RefusesNode owner level page.0
        (viewed store.old image batch.now page.0)) }
{
    let bytes = bytes_of(store, batch, page)?;
    let node = node_of(store.alloc(), bytes.as_slice(), page, owner, level)?;
    Ok(ReadNode { page, bytes, node })
}
