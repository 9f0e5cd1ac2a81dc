//! A table's directory of keys is made.

ghost use Rattle.std.specs.Prelude.{◌≡◌, None, MatchResult};
ghost use Rattle.mg_works.specs.Works.{MayBeGiven};
ghost use Rattle.mg_core.specs.Cores.{IsCore};
ghost use Rattle.mg_core.specs.Noting.{MakesDirectory, WhyNotMade};
ghost use Rattle.mg_core.specs.Reading.{FailsReading};

use crate::parts::Core;
use crate::states::StatesOf;
use mg_base::Disk;
use mg_model::{Refusal, Table};
use mg_noting::make_directory;

impl<D: Disk> Core<D> {
    /// Makes the directory of a table, by which its rows are found by their keys, if it has none and is not
    /// known to have too many records. For want of memory it has none afterwards either, and nothing is told
    /// of that.
    ///
    /// # Errors
    ///
    /// What the reading is refused for, but not `Memory`. Then no directory has changed.
    pub fn make_directory(&mut self, table: &Table) -> Result<(), Refusal>
        requires core { IsCore D.meaning self.old }
        requires online { self.old.store.offline ≡ None }
        requires given { MayBeGiven table.now }
        ensures core { IsCore D.meaning self.new }
        ensures makes { MatchResult result (λ _. MakesDirectory D.meaning self.old self.new table.now)
            (FailsReading D.meaning self.old self.new (WhyNotMade D.meaning self.old table.now)) }
    {
        let states = StatesOf::new(&self.list);
        match make_directory(
            &mut self.store,
            table,
            &states,
            &self.live,
            &mut self.directories,
        ) {
            Ok(()) => Ok(()),
            Err(fault) => Err(self.refuse(fault)),
        }
    }
}
