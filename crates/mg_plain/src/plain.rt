//! The plain machine: a slow program whose answers are the machine's.

ghost use Rattle.std.specs.Prelude.{◌≡◌, ◌+◌, ◌≤◌, ◌∷◌, [], IfOk, OnErr, length};
ghost use Rattle.mg_model.specs.Changes.{row_at};
ghost use Rattle.mg_model.specs.Machine.{placed, catalog_changes as catalog_changes_in};
ghost use Rattle.mg_model.specs.Catalog.{catalog_name};
ghost use Rattle.mg_model.specs.Answers.{answer as answer_after, answer_by};
ghost use Rattle.mg_plain.specs.Keeping.{StandsFor, told_in, kept_after, LieWithin};
ghost use Rattle.mg_model.specs.History.{Entries, entry};
ghost use Rattle.mg_model.specs.declared.opening.Opening.{Opening as AnyOpening};

use crate::beginning::{catalog_changes, known_at_first, limbo_steps, placed_changes};
use crate::known::{BegunBy, Known};
use crate::plain::taking::{transaction_of, waits_by};
use mg_base::{Memory, TxNo};
use mg_model::{Answer, Change, Event, Opening, PlacedRow, Step};
use std::alloc::Global;

mod indexed;
mod judging;
mod keyed;
mod obeying;
mod records;
pub mod seeing;
mod tables;
pub(crate) mod taking;
mod tending;

/// The plain machine. It keeps what the answers depend on, and searches it from the newest to the
/// oldest: faster machines are compared with it.
#[derive(Drop)]
pub struct Plain {
    alloc: Global,
    limit: u32,
    opened: usize,
    known: Vec<Known>,
    committed: Vec<TxNo>,
    steps: Vec<Step>,
    database: Vec<Change>,
    begun_by: Vec<BegunBy>,
    ghost drawn: { length known.items ≤ limit },
    ghost bases: { LieWithin (length database.items) opened known.items },
}

impl Plain {
    ghost use Rattle.mg_plain.specs.Kept.{kept};
    ghost use Rattle.mg_plain.specs.Beginning.{catalog_of_one};

    /// The machine at an opening, which stands for the history without entries.
    ///
    /// # Errors
    ///
    /// `Memory` only.
    pub fn new(alloc: Global, opening: &Opening) -> Result<Plain, Memory>
        requires states { length opening.now.states + 1 ≡ opening.now.next.0 }
        requires limit { opening.now.next.0 ≤ opening.now.limit.0 }
        ensures { IfOk result (λ plain. StandsFor opening.now [] (kept plain)) }
    {
        let rows = opening.rows.as_slice();
        let database = rows_placed(alloc, rows)?;
        let opened = database.as_slice().len();
        let known = known_at_first(alloc, opening.states.as_slice(), opened)?;
        let steps = limbo_steps(alloc, opening.limbo.as_slice())?;
        Ok(Plain {
            alloc,
            limit: opening.limit.0,
            opened,
            known,
            committed: Vec::new(alloc),
            steps,
            database,
            begun_by: Vec::new(alloc),
        })
    }

    /// A machine that has a catalog, and no transaction but the system's, which sees it.
    fn of_catalog(alloc: Global, database: Vec<Change>) -> Result<Plain, Memory>
        ensures { IfOk result (λ plain. catalog_of_one plain ≡ row_at database.items catalog_name) }
    {
        let opened = database.len();
        Ok(Plain {
            alloc,
            limit: 1,
            opened,
            known: known_at_first(alloc, &[], opened)?,
            committed: Vec::new(alloc),
            steps: Vec::new(alloc),
            database,
            begun_by: Vec::new(alloc),
        })
    }

    /// Answers an event, which then stands in the history.
    ///
    /// # Errors
    ///
    /// `Memory` only. Nothing has changed then.
    pub fn answer(&mut self, event: &Event) -> Result<Answer, Memory>
        ensures stands { (o : AnyOpening) (h : Entries) → StandsFor o h (kept self.old)
            → IfOk result (λ given. (given ≡ answer_after o h event.now)
            × StandsFor o (entry event.now given ∷ h) (kept self.new)) }
        ensures given { IfOk result (λ given. given ≡ answer_by (told_in (kept self.old)) event.now) }
        ensures kept { IfOk result (λ given. kept self.new ≡ kept_after event.now given (kept self.old)) }
        ensures err { OnErr result (kept self.new ≡ kept self.old) }
    {
        let answer = self.judge(event)?;
        self.take_effect(event, &answer)?;
        self.note(transaction_of(event), waits_by(&answer));
        Ok(answer)
    }
}

/// The rows of an opening as changes, each under its key by the catalog among them.
fn rows_placed(alloc: Global, rows: &[PlacedRow]) -> Result<Vec<Change>, Memory>
    ensures { IfOk result (λ changes. changes.items
        ≡ placed (row_at (catalog_changes_in rows.now) catalog_name) rows.now) }
{
    let seen = Plain::of_catalog(alloc, catalog_changes(alloc, rows)?)?;
    placed_changes(alloc, &seen, rows)
}
