//! The keeper of records.

ghost use Rattle.std.specs.Prelude.{◌≡◌, ◌≢◌, ◌<◌, ◌≤◌, ℕ, Option, Some, None, IfOk, OnOk, length};
ghost use Rattle.std.specs.Option.{option_copied};
ghost use Rattle.mg_value.specs.Names.{IsName};
ghost use Rattle.mg_model.specs.declared.event.Event.{Event};
ghost use Rattle.mg_model.specs.Changes.{KeyedRows};
ghost use Rattle.mg_model.specs.Catalog.{catalog_name};
ghost use Rattle.mg_records.specs.Meaning.{Means};
ghost use Rattle.mg_records.specs.Keeping.{FaultsAreTold, Leaves, MeetsNoDamage, Reads, refusal_in};
ghost use Rattle.mg_records.specs.Crashing.{CrashesHold, HoldsOn, LeavesQuietly, LeavesWith};
ghost use Rattle.mg_records.specs.Sessions.{SessionsAreOne, SessionsStay, begun_in, ended_in, given_up_in};
ghost use Rattle.mg_records.specs.Asking.{EndsInItsRoom, TakesNoPage, TakesNothing, WritesNoPage, WritesOnePage};
ghost use Rattle.mg_records.specs.Adding.{Adds, AnswersAll, fine_or, number_or, drawn_in};
ghost use Rattle.mg_records.specs.Reading.{TellsTable, IsTableGiven, TablesAreSeen, IsPlace, Nears, FindsFitting, Visits, WalksAreWhole, FindAdds};
ghost use Rattle.mg_records.specs.Writing.{FitsShape, FitsPages, IsNewShape, MakesTable, event_of};
ghost use Rattle.mg_records.specs.TakingBack.{GoesBack, Undoes};
ghost use Rattle.mg_records.specs.Committing.{PagesAreFew, WritesOne};
ghost use Rattle.mg_records.specs.Room.{TakesFew, TakesFewBack, pages_of_begin, pages_of_row, pages_of_table};
ghost use Rattle.mg_model.specs.declared.change.Point.TheVariants.{LastMark, SavepointNamed};

use crate::{Found, Write};
use mg_base::{Memory, TxNo};
use mg_expr::Expr;
use mg_model::{Mode, Refusal, Rows, Table};
use mg_value::{Name, Shape};
use std::alloc::Global;

/// A keeper of records, which stands for a history of events.
///
/// A call with a transaction that isn't active is refused by `NotActive`, with its state.
pub trait Records {
    /// Where a walk over the records of a table has come to.
    type Place;

    ghost meaning: { Means Self Self.Place };

    /// An equal place.
    ///
    /// # Errors
    ///
    /// `Memory` only.
    fn copy_place(alloc: Global, place: &Self::Place) -> Result<Self::Place, Memory>
        ensures { IfOk result (λ copied. copied ≡ place.now) };

    /// Begins a transaction for a session that has no active one, with the next number.
    fn begin(&mut self, session: u8, mode: Mode) -> Result<TxNo, Refusal>
        requires session { session < 32 }
        requires free { meaning.is_free self.old session }
        ensures adds { Adds meaning self.old self.new (Event.Begin session mode) (number_or result) }
        ensures leaves { Leaves meaning self.old self.new (refusal_in result) (drawn_in result) (drawn_in result) }
        ensures told { FaultsAreTold meaning self.old self.new (refusal_in result) }
        ensures undamaged { MeetsNoDamage meaning self.old self.new }
        ensures room { TakesFew meaning self.old self.new (refusal_in result) pages_of_begin }
        ensures crash { LeavesQuietly meaning self.old self.new }
        ensures sessions { SessionsStay meaning self.old self.new (begun_in session result) None }
        ensures works { IfOk result (λ t. meaning.works self.new t.0 session) };

    /// Begins a statement: under READ COMMITTED the transaction takes a new base.
    fn look(&mut self, t: TxNo) -> Result<(), Refusal>
        ensures adds { Adds meaning self.old self.new (Event.Look t) (fine_or result) }
        ensures leaves { Leaves meaning self.old self.new (refusal_in result) (Some t.0) (Some t.0) }
        ensures told { FaultsAreTold meaning self.old self.new (refusal_in result) }
        ensures undamaged { MeetsNoDamage meaning self.old self.new }
        ensures room { TakesFew meaning self.old self.new (refusal_in result) 0 }
        ensures unpaged { TakesNoPage (refusal_in result) }
        ensures unwritten { WritesNoPage meaning self.old self.new }
        ensures crash { LeavesQuietly meaning self.old self.new }
        ensures sessions { SessionsStay meaning self.old self.new None None };

    /// The table of a name that the transaction sees.
    ///
    /// # Errors
    ///
    /// `NoTable` exactly where the catalog that it sees names no such table; the catalog names
    /// itself not.
    fn table(&mut self, t: TxNo, name: &Name) -> Result<Table, Refusal>
        ensures table { TellsTable meaning self.old t.0 name.now result }
        ensures given { IfOk result (IsTableGiven meaning self.new t.0 name.now) }
        ensures reads { Reads meaning self.old self.new (refusal_in result) None }
        ensures told { FaultsAreTold meaning self.old self.new (refusal_in result) }
        ensures undamaged { MeetsNoDamage meaning self.old self.new }
        ensures room { TakesFew meaning self.old self.new (refusal_in result) 0 }
        ensures unwritten { WritesNoPage meaning self.old self.new }
        ensures crash { LeavesQuietly meaning self.old self.new }
        ensures sessions { SessionsStay meaning self.old self.new None None };

    /// Visits the next record of a table after a place, the first one for None. It answers None
    /// exactly where there is no further record. A row that it gives may stand in the table.
    fn scan_step(
        &mut self,
        t: TxNo,
        table: &Table,
        after: Option<&Self::Place>,
    ) -> Result<Option<Found<Self::Place>>, Refusal>
        requires table { meaning.table self.old t.0 table.now.name ≡ Some table.now }
        requires place { IsPlace meaning self.old table.now (option_copied after) }
        ensures answers { AnswersAll meaning self.old t.0 result }
        ensures nears { Nears meaning self.old self.new t.0 table.now (option_copied after.entry) result }
        ensures fits { FindsFitting table.now.shape result }
        ensures visits { (rows : KeyedRows)
            → meaning.to_come self.old t.0 table.now (option_copied after.entry) rows
            → Visits meaning self.new t.0 table.now result rows }
        ensures reads { Reads meaning self.old self.new (refusal_in result) (Some t.0) }
        ensures told { FaultsAreTold meaning self.old self.new (refusal_in result) }
        ensures undamaged { (rows : KeyedRows)
            → meaning.to_come self.old t.0 table.now (option_copied after.entry) rows
            → MeetsNoDamage meaning self.old self.new }
        ensures room { TakesFew meaning self.old self.new (refusal_in result) 0 }
        ensures unwritten { WritesNoPage meaning self.old self.new }
        ensures crash { LeavesQuietly meaning self.old self.new }
        ensures sessions { SessionsStay meaning self.old self.new None None };

    /// Tells what a statement found: the rows are those that the machine finds.
    fn found(
        &mut self,
        t: TxNo,
        name: &Name,
        filter: &Option<Expr>,
        rows: &Rows,
    ) -> Result<(), Refusal>
        ensures adds { FindAdds meaning self.old self.new t name.now filter.now rows.now result }
        ensures leaves { Leaves meaning self.old self.new (refusal_in result) None None }
        ensures told { FaultsAreTold meaning self.old self.new (refusal_in result) }
        ensures undamaged { MeetsNoDamage meaning self.old self.new }
        ensures room { TakesFew meaning self.old self.new (refusal_in result) 0 }
        ensures unpaged { TakesNoPage (refusal_in result) }
        ensures unwritten { WritesNoPage meaning self.old self.new }
        ensures crash { LeavesQuietly meaning self.old self.new }
        ensures sessions { SessionsStay meaning self.old self.new None None };

    /// Writes a row. A refusal changes nothing but whom the transaction waits on.
    fn write_step(&mut self, t: TxNo, table: &Table, write: &Write) -> Result<(), Refusal>
        requires table { meaning.table self.old t.0 table.now.name ≡ Some table.now }
        requires fits { FitsShape table.now.shape write.now }
        ensures adds { Adds meaning self.old self.new
            (event_of t table.now.name write.now) (fine_or result) }
        ensures leaves { Leaves meaning self.old self.new (refusal_in result) None (Some t.0) }
        ensures told { FaultsAreTold meaning self.old self.new (refusal_in result) }
        ensures undamaged { MeetsNoDamage meaning self.old self.new }
        ensures room { TakesFew meaning self.old self.new (refusal_in result) pages_of_row }
        ensures crash { LeavesQuietly meaning self.old self.new }
        ensures sessions { SessionsStay meaning self.old self.new None None };

    /// Makes a table: the rows of the catalog that say it come one after another, that of the table
    /// first.
    fn create_table(&mut self, t: TxNo, name: &Name, shape: &Shape) -> Result<(), Refusal>
        requires named { IsName name.now }
        requires other { name.now ≢ catalog_name }
        requires shape { IsNewShape shape.now }
        requires pages { FitsPages meaning self.old shape.now }
        ensures adds { MakesTable meaning self.old self.new t name.now shape.now (refusal_in result) }
        ensures leaves { Leaves meaning self.old self.new (refusal_in result) (Some t.0) (Some t.0) }
        ensures told { FaultsAreTold meaning self.old self.new (refusal_in result) }
        ensures undamaged { MeetsNoDamage meaning self.old self.new }
        ensures room { TakesFew meaning self.old self.new (refusal_in result) (pages_of_table (length shape.now.columns)) }
        ensures crash { LeavesQuietly meaning self.old self.new }
        ensures sessions { SessionsStay meaning self.old self.new None None };

    /// Sets a mark, to which one statement can be taken back.
    fn mark(&mut self, t: TxNo) -> Result<(), Refusal>
        ensures adds { Adds meaning self.old self.new (Event.Mark t) (fine_or result) }
        ensures leaves { Leaves meaning self.old self.new (refusal_in result) None None }
        ensures told { FaultsAreTold meaning self.old self.new (refusal_in result) }
        ensures undamaged { MeetsNoDamage meaning self.old self.new }
        ensures room { TakesFew meaning self.old self.new (refusal_in result) 0 }
        ensures unpaged { TakesNoPage (refusal_in result) }
        ensures unwritten { WritesNoPage meaning self.old self.new }
        ensures crash { LeavesQuietly meaning self.old self.new }
        ensures sessions { SessionsStay meaning self.old self.new None None };

    /// Takes back all since the last mark, which ends; where there is none, nothing.
    ///
    /// # Errors
    ///
    /// Where pages or memory are short, or a page can't be read or is damaged, the transaction is
    /// rolled back.
    fn undo_mark(&mut self, t: TxNo) -> Result<(), Refusal>
        ensures undoes { Undoes meaning self.old self.new t result }
        ensures leaves { Leaves meaning self.old self.new (refusal_in result) (Some t.0) (Some t.0) }
        ensures told { FaultsAreTold meaning self.old self.new (refusal_in result) }
        ensures undamaged { MeetsNoDamage meaning self.old self.new }
        ensures room { TakesFewBack meaning self.old self.new (refusal_in result) t.0 LastMark }
        ensures crash { LeavesQuietly meaning self.old self.new }
        ensures sessions { SessionsStay meaning self.old self.new None (given_up_in t.0 result) };

    /// Sets a savepoint.
    fn savepoint(&mut self, t: TxNo, name: &Name) -> Result<(), Refusal>
        ensures adds { Adds meaning self.old self.new (Event.Savepoint t name.now) (fine_or result) }
        ensures leaves { Leaves meaning self.old self.new (refusal_in result) None None }
        ensures told { FaultsAreTold meaning self.old self.new (refusal_in result) }
        ensures undamaged { MeetsNoDamage meaning self.old self.new }
        ensures room { TakesFew meaning self.old self.new (refusal_in result) 0 }
        ensures unpaged { TakesNoPage (refusal_in result) }
        ensures unwritten { WritesNoPage meaning self.old self.new }
        ensures crash { LeavesQuietly meaning self.old self.new }
        ensures sessions { SessionsStay meaning self.old self.new None None };

    /// Takes back all since the last savepoint of a name, which stays; later ones go. It answers
    /// false exactly where there is no such savepoint, and then nothing has changed.
    ///
    /// # Errors
    ///
    /// As `undo_mark`.
    fn back_to(&mut self, t: TxNo, name: &Name) -> Result<bool, Refusal>
        ensures goes { GoesBack meaning self.old self.new t name.now result }
        ensures leaves { Leaves meaning self.old self.new (refusal_in result) (Some t.0) (Some t.0) }
        ensures told { FaultsAreTold meaning self.old self.new (refusal_in result) }
        ensures undamaged { MeetsNoDamage meaning self.old self.new }
        ensures room { TakesFewBack meaning self.old self.new (refusal_in result) t.0
            (SavepointNamed name.now) }
        ensures crash { LeavesQuietly meaning self.old self.new }
        ensures sessions { SessionsStay meaning self.old self.new None (given_up_in t.0 result) };

    /// Asks for a commit: what the transaction's commit has to write first is noted.
    fn commit_ask(&mut self, t: TxNo) -> Result<(), Refusal>
        ensures answers { AnswersAll meaning self.old t.0 result }
        ensures asks { OnOk result (meaning.is_asked self.new t.0) }
        ensures reads { Reads meaning self.old self.new (refusal_in result) (Some t.0) }
        ensures told { FaultsAreTold meaning self.old self.new (refusal_in result) }
        ensures undamaged { MeetsNoDamage meaning self.old self.new }
        ensures room { TakesFew meaning self.old self.new (refusal_in result) 0 }
        ensures unwritten { WritesNoPage meaning self.old self.new }
        ensures takes { TakesNothing (refusal_in result) }
        ensures crash { LeavesQuietly meaning self.old self.new }
        ensures sessions { SessionsStay meaning self.old self.new None None };

    /// Writes one page for a commit that was asked for: one that was noted, or one that has to be
    /// written before it. It answers true exactly where all that was noted is written, and then it
    /// writes none.
    fn commit_step(&mut self, t: TxNo) -> Result<bool, Refusal>
        requires asked { meaning.is_asked self.old t.0 }
        ensures answers { AnswersAll meaning self.old t.0 result }
        ensures one { WritesOne meaning self.old self.new t.0 result }
        ensures reads { Reads meaning self.old self.new (refusal_in result) None }
        ensures told { FaultsAreTold meaning self.old self.new (refusal_in result) }
        ensures undamaged { MeetsNoDamage meaning self.old self.new }
        ensures room { TakesFew meaning self.old self.new (refusal_in result) 0 }
        ensures written { OnOk result (WritesOnePage meaning self.old self.new) }
        ensures takes { TakesNothing (refusal_in result) }
        ensures crash { LeavesQuietly meaning self.old self.new }
        ensures sessions { SessionsStay meaning self.old self.new None None };

    /// Commits a transaction, once all that was noted is written.
    fn commit_end(&mut self, t: TxNo) -> Result<(), Refusal>
        requires written { meaning.is_written self.old t.0 }
        ensures adds { Adds meaning self.old self.new (Event.Commit t) (fine_or result) }
        ensures leaves { Leaves meaning self.old self.new (refusal_in result) (Some t.0) (Some t.0) }
        ensures told { FaultsAreTold meaning self.old self.new (refusal_in result) }
        ensures undamaged { MeetsNoDamage meaning self.old self.new }
        ensures room { TakesFew meaning self.old self.new (refusal_in result) 0 }
        ensures takes { EndsInItsRoom meaning (refusal_in result) }
        ensures crash { LeavesWith meaning self.old self.new (Event.Commit t) (fine_or result) }
        ensures sessions { SessionsStay meaning self.old self.new None (ended_in t.0 result) };

    /// Rolls a transaction back.
    fn rollback(&mut self, t: TxNo) -> Result<(), Refusal>
        ensures adds { Adds meaning self.old self.new (Event.Rollback t) (fine_or result) }
        ensures leaves { Leaves meaning self.old self.new (refusal_in result) (Some t.0) (Some t.0) }
        ensures told { FaultsAreTold meaning self.old self.new (refusal_in result) }
        ensures undamaged { MeetsNoDamage meaning self.old self.new }
        ensures room { TakesFew meaning self.old self.new (refusal_in result) 0 }
        ensures unwritten { WritesNoPage meaning self.old self.new }
        ensures takes { EndsInItsRoom meaning (refusal_in result) }
        ensures crash { LeavesQuietly meaning self.old self.new }
        ensures sessions { SessionsStay meaning self.old self.new None (ended_in t.0 result) };

    ghost seen: { TablesAreSeen meaning };

    ghost whole: { WalksAreWhole meaning };

    ghost few: { PagesAreFew meaning };

    ghost crashes: { CrashesHold meaning };

    ghost lasts: { HoldsOn meaning };

    ghost one: { SessionsAreOne meaning };
}
