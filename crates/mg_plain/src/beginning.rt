//! Where a plain machine begins.

ghost use Rattle.std.specs.Prelude.{◌≡◌, ◌++◌, ◌∷◌, [], IfOk, OnOk, map};
ghost use Rattle.mg_model.specs.Machine.{catalog_changes as catalog_changes_of, placed as placed_of, limbo_step as limbo_step_of};
ghost use Rattle.mg_plain.specs.Beginning.{known_all, catalog_of_one};
ghost use Rattle.mg_plain.specs.Keeping.{known_at_opening};

use crate::Plain;
use crate::known::Known;
use crate::lookup::same_name;
use crate::plain::seeing::value_at;
use mg_base::{Memory, TxState};
use mg_model::{CATALOG, Change, Deed, LimboChange, Mode, PlacedRow, Step, copy_row};
use std::alloc::Global;

/// What is known of a transaction of the opening: it saw the opening's database alone.
fn known_once(state: TxState, opened: usize) -> Known
    ensures { result ≡ known_at_opening opened state }
{
    Known {
        state,
        mode: Mode {
            read_only: true,
            wait: false,
            snapshot: true,
        },
        base: opened,
        saw: 0,
        place: 0,
        waits: None,
    }
}

/// What is known of the opening's transactions, from number 0 on, which is the system's.
pub fn known_at_first(
    alloc: Global,
    states: &[TxState],
    opened: usize,
) -> Result<Vec<Known>, Memory>
    ensures { IfOk result (λ known. known.items ≡ known_all opened states.now) }
{
    let mut known = Vec::new(alloc);
    known.push(known_once(TxState::Committed, opened))?;
    for state in states {
        known.push(known_once(*state, opened))?;
    }
    Ok(known)
}

/// The rows of the catalog among the rows of an opening, as changes.
pub fn catalog_changes(alloc: Global, rows: &[PlacedRow]) -> Result<Vec<Change>, Memory>
    ensures { IfOk result (λ changes. changes.items ≡ catalog_changes_of rows.now) }
{
    let mut changes = Vec::new(alloc);
    for placed in rows {
        push_catalog(alloc, &mut changes, placed)?;
    }
    Ok(changes)
}

/// Pushes a row of an opening as a change, if it is one of the catalog.
fn push_catalog(alloc: Global, changes: &mut Vec<Change>, placed: &PlacedRow) -> Result<(), Memory>
    ensures { OnOk result
        (changes.new.items ≡ changes.old.items ++ catalog_changes_of (placed.now ∷ [])) }
{
    if same_name(placed.table.as_slice(), CATALOG) {
        changes.push(Change {
            table: placed.table,
            key: value_at(alloc, &placed.row, 0)?,
            row: Some(placed.row.copy(alloc)?),
        })?;
    }
    Ok(())
}

/// The rows of an opening as changes, each under its key by the catalog that `seen` has.
pub fn placed_changes(
    alloc: Global,
    seen: &Plain,
    rows: &[PlacedRow],
) -> Result<Vec<Change>, Memory>
    ensures { IfOk result (λ changes. changes.items ≡ placed_of (catalog_of_one seen.now) rows.now) }
{
    let mut changes = Vec::new(alloc);
    for placed in rows {
        changes.push(Change {
            table: placed.table,
            key: seen.key_of(0, &placed.table, &placed.row)?,
            row: Some(placed.row.copy(alloc)?),
        })?;
    }
    Ok(changes)
}

/// The changes of the transactions in limbo as steps.
pub fn limbo_steps(alloc: Global, limbo: &[LimboChange]) -> Result<Vec<Step>, Memory>
    ensures { IfOk result (λ steps. steps.items ≡ map limbo_step_of limbo.now) }
{
    let mut steps = Vec::new(alloc);
    for change in limbo {
        steps.push(limbo_step(alloc, change)?)?;
    }
    Ok(steps)
}

/// A change of a transaction in limbo as a step.
fn limbo_step(alloc: Global, change: &LimboChange) -> Result<Step, Memory>
    ensures { IfOk result (λ step. step ≡ limbo_step_of change.now) }
{
    Ok(Step {
        by: change.by,
        deed: Deed::Changed(Change {
            table: change.table,
            key: change.key.value().copy(alloc)?,
            row: copy_row(alloc, &change.row)?,
        }),
    })
}
