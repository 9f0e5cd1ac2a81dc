//! What has become of those who have written versions.

ghost use Rattle.std.specs.Prelude.{◌≡◌, ◌++◌, OnOk};
ghost use Rattle.mg_base.specs.Image.{page_at};
ghost use Rattle.mg_check_inventory.specs.ImagePages.{IsWholeImage};
ghost use Rattle.mg_check_states.specs.States.{backs_of, dead_finding as finding_of_dead, dead_of, drawn_of, is_committed as committed_state, is_dead as dead_state, later_backs, may_stand as may_stand_by, state_finding as finding_of_state, unless};
ghost use Rattle.mg_image.specs.Inventory.{state_at};
ghost use Rattle.mg_limbo_list.specs.Limbo.{IsTips};

use mg_base::{Bytes, Field, Memory, RecId, TxState};
use mg_findings::{Finding, Rule};
use mg_image::Entry;
use mg_limbo_list::Tips;
use mg_tip::bits_of;

/// The markers of a file by which the writer of a version is judged.
#[derive(Clone, Copy)]
pub struct Bounds {
    /// The next transaction.
    pub next: u32,
    /// The oldest interesting transaction.
    pub oldest: u32,
    /// The oldest active transaction.
    pub active: u32,
}

/// What has become of a transaction of an image.
fn state_of(size: u32, pages: &[Bytes], tips: &Tips, t: u32) -> TxState
    requires image { IsWholeImage size pages.now }
    requires tips { IsTips size pages.now tips.now }
    ensures { result ≡ state_at size (page_at size pages.now) t }
{
    tips.state(pages, t)
}

/// Whether a version may stand in a record whose writer has this number, and of which this has become.
fn may_stand(bounds: Bounds, t: u32, state: TxState) -> bool
    ensures { result ≡ may_stand_by bounds t state }
{
    if t >= bounds.next {
        return false;
    }
    match state {
        TxState::Active => true,
        TxState::Limbo => !(t < bounds.active),
        TxState::Dead => !(t < bounds.oldest),
        TxState::Committed => true,
    }
}

/// Whether this is the end of a commit.
fn is_committed(state: TxState) -> bool
    ensures { result ≡ committed_state state }
{
    match state {
        TxState::Committed => true,
        TxState::Active => false,
        TxState::Limbo => false,
        TxState::Dead => false,
    }
}

/// Whether a transaction of which this has become is dead.
fn is_dead(state: TxState) -> bool
    ensures { result ≡ dead_state state }
{
    match state {
        TxState::Dead => true,
        TxState::Active => false,
        TxState::Limbo => false,
        TxState::Committed => false,
    }
}

/// The finding of a version by what has become of its writer.
fn state_finding(x: RecId, state: TxState) -> Finding
    ensures { result ≡ finding_of_state x state }
{
    Finding {
        page: x.page,
        slot: x.slot,
        what: Rule::Damage(Field::State),
        found: u64::from(bits_of(state)),
        wanted: 3,
    }
}

/// The finding of a version of a dead transaction.
fn dead_finding(x: RecId) -> Finding
    ensures { result ≡ finding_of_dead x }
{
    Finding {
        page: x.page,
        slot: x.slot,
        what: Rule::Dead,
        found: 0,
        wanted: 0,
    }
}

/// Adds a finding, unless all is well.
fn add_unless(findings: &mut Vec<Finding>, is_well: bool, finding: Finding) -> Result<(), Memory>
    ensures { OnOk result (findings.new.items ≡ findings.old.items ++ unless is_well finding) }
{
    if !is_well {
        findings.push(finding)?;
    }
    Ok(())
}

/// Adds what is found of the versions of a record by their writers, the newest first.
///
/// `size` is the page size in bytes.
///
/// # Errors
///
/// `Memory` only.
pub fn note_drawn(
    findings: &mut Vec<Finding>,
    size: u32,
    pages: &[Bytes],
    tips: &Tips,
    bounds: Bounds,
    entries: &[Entry],
) -> Result<(), Memory>
    requires image { IsWholeImage size pages.now }
    requires tips { IsTips size pages.now tips.now }
    ensures { OnOk result (findings.new.items
        ≡ findings.old.items ++ drawn_of (state_at size (page_at size pages.now)) bounds entries.now) }
{
    let mut rest = entries;
    while let Some((entry, older)) = rest.split_first() {
        let t = entry.version.tx.0;
        let state = state_of(size, pages, tips, t);
        let well = may_stand(bounds, t, state);
        add_unless(findings, well, state_finding(entry.at, state))?;
        rest = older;
    }
    Ok(())
}

/// Adds each of these versions whose writer is not committed.
fn note_uncommitted(
    findings: &mut Vec<Finding>,
    size: u32,
    pages: &[Bytes],
    tips: &Tips,
    entries: &[Entry],
) -> Result<(), Memory>
    requires image { IsWholeImage size pages.now }
    requires tips { IsTips size pages.now tips.now }
    ensures { OnOk result (findings.new.items
        ≡ findings.old.items ++ later_backs (state_at size (page_at size pages.now)) entries.now) }
{
    let mut rest = entries;
    while let Some((entry, older)) = rest.split_first() {
        let state = state_of(size, pages, tips, entry.version.tx.0);
        add_unless(
            findings,
            is_committed(state),
            state_finding(entry.at, state),
        )?;
        rest = older;
    }
    Ok(())
}

/// Adds what is found of the back versions of a record: each whose writer is not committed. The first of `entries` is
/// the newest version, and none of them.
///
/// `size` is the page size in bytes.
///
/// # Errors
///
/// `Memory` only.
pub fn note_backs(
    findings: &mut Vec<Finding>,
    size: u32,
    pages: &[Bytes],
    tips: &Tips,
    entries: &[Entry],
) -> Result<(), Memory>
    requires image { IsWholeImage size pages.now }
    requires tips { IsTips size pages.now tips.now }
    ensures { OnOk result (findings.new.items
        ≡ findings.old.items ++ backs_of (state_at size (page_at size pages.now)) entries.now) }
{
    match entries.split_first() {
        None => Ok(()),
        Some((_, older)) => note_uncommitted(findings, size, pages, tips, older),
    }
}

/// Adds the versions of dead transactions among those of a record.
///
/// `size` is the page size in bytes.
///
/// # Errors
///
/// `Memory` only.
pub fn note_dead(
    findings: &mut Vec<Finding>,
    size: u32,
    pages: &[Bytes],
    tips: &Tips,
    entries: &[Entry],
) -> Result<(), Memory>
    requires image { IsWholeImage size pages.now }
    requires tips { IsTips size pages.now tips.now }
    ensures { OnOk result (findings.new.items
        ≡ findings.old.items ++ dead_of (state_at size (page_at size pages.now)) entries.now) }
{
    let mut rest = entries;
    while let Some((entry, older)) = rest.split_first() {
        let state = state_of(size, pages, tips, entry.version.tx.0);
        add_unless(findings, !is_dead(state), dead_finding(entry.at))?;
        rest = older;
    }
    Ok(())
}
