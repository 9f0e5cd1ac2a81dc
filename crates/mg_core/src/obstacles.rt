//! Who is in the way of a write, and what is told of it.

ghost use Rattle.std.specs.Prelude.{◌≡◌, None, MatchResult};
ghost use Rattle.mg_waits.specs.Waits.{edges_in};
ghost use Rattle.mg_core.specs.Cores.{IsCore};
ghost use Rattle.mg_core.specs.Obstacles.{HindersBy, IsPassed, PassesRecord, PassesTable, StopsAtRecord, StopsAtTable, TellsVerdict};

use crate::parts::Core;
use crate::states::StatesOf;
use mg_base::{Disk, PageNo, RecId, TxNo};
use mg_model::{Refusal, Table};
use mg_row_writes::{obstacle_at, obstacle_of_record, table_key};
use mg_seek::Obstacle;
use mg_waits::Verdict;

impl<D: Disk> Core<D> {
    /// Goes on where nobody is in the way of a write to a table by its row of the catalog. That is looked for where it
    /// was last found; only where it does not stand there, the rows of the catalog are gone through.
    ///
    /// # Errors
    ///
    /// What is told of the one who is; `Memory`; or what the reading is refused for.
    pub fn pass_table(&mut self, t: TxNo, wait: bool, table: &Table) -> Result<(), Refusal>
        requires core { IsCore D.meaning self.old }
        ensures core { IsCore D.meaning self.new }
        ensures passes { MatchResult result (λ _. PassesTable D.meaning self.old self.new t wait table.now.name)
            (StopsAtTable D.meaning self.old self.new t wait table.now.name) }
    {
        let key = match table_key(self.store.alloc(), &table.name) {
            Ok(key) => key,
            Err(_) => return Err(Refusal::Memory),
        };
        let place = self.directories.row_of_table(table.pointer);
        let states = StatesOf::new(&self.list);
        match obstacle_at(
            &mut self.store,
            &self.catalog,
            &key,
            &states,
            &self.live,
            t,
            place,
        ) {
            Ok(found) => {
                self.remember_row(table.pointer, found.rec);
                self.pass(t, wait, found.obstacle)
            }
            Err(fault) => Err(self.refuse(fault)),
        }
    }

    /// Remembers where the row of a table in the catalog was found, if it was.
    fn remember_row(&mut self, first: PageNo, rec: Option<RecId>)
        requires core { IsCore D.meaning self.old }
        ensures core { IsCore D.meaning self.new }
        ensures same { self.new ≡ self.old }
    {
        if let Some(rec) = rec {
            self.directories.remember_row(first, rec);
        }
    }

    /// Goes on where nobody is in the way of a write to a record.
    ///
    /// # Errors
    ///
    /// As `pass_table`.
    pub fn pass_record(&mut self, t: TxNo, wait: bool, rec: Option<RecId>) -> Result<(), Refusal>
        requires core { IsCore D.meaning self.old }
        requires online { self.old.store.offline ≡ None }
        ensures core { IsCore D.meaning self.new }
        ensures passes { MatchResult result (λ _. PassesRecord D.meaning self.old self.new t wait rec)
            (StopsAtRecord D.meaning self.old self.new t wait rec) }
    {
        let states = StatesOf::new(&self.list);
        match obstacle_of_record(&mut self.store, rec, &states, &self.live, t) {
            Ok(found) => self.pass(t, wait, found),
            Err(fault) => Err(self.refuse(fault)),
        }
    }

    /// Goes on where this one is not in the way of t, which tells whether it would wait.
    ///
    /// # Errors
    ///
    /// What is told of it; `Memory`, where it is to be noted that t waits.
    fn pass(&mut self, t: TxNo, wait: bool, found: Option<Obstacle>) -> Result<(), Refusal>
        requires core { IsCore D.meaning self.old }
        ensures core { IsCore D.meaning self.new }
        ensures passes { MatchResult result
            (λ _. (self.new ≡ self.old) × IsPassed (edges_in self.old.waits) t.0 wait found)
            (HindersBy self.old self.new t.0 wait found) }
    {
        let Some(obstacle) = found else {
            return Ok(());
        };
        match self.waits.verdict(t, wait, obstacle.by, obstacle.state) {
            None => Ok(()),
            Some(verdict) => Err(self.tell(t, obstacle.by, verdict)),
        }
    }

    /// What t is told of one who is in its way. Where it is to wait, that is noted.
    fn tell(&mut self, t: TxNo, by: TxNo, verdict: Verdict) -> Refusal
        requires core { IsCore D.meaning self.old }
        ensures core { IsCore D.meaning self.new }
        ensures tells { TellsVerdict self.old self.new t.0 by verdict result }
    {
        match verdict {
            Verdict::Update => Refusal::UpdateConflict { by },
            Verdict::Lock => Refusal::LockConflict { by },
            Verdict::Deadlock => Refusal::Deadlock { by },
            Verdict::Limbo => Refusal::InLimbo { by },
            Verdict::Wait => match self.waits.note(t, by) {
                Ok(()) => Refusal::Waits { on: by },
                Err(_) => Refusal::Memory,
            },
        }
    }
}
