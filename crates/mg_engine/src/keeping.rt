//! The engine as a keeper of records.

ghost use Rattle.mg_engine_meaning_laws.specs.Meaning.{means, means_with_room};
ghost use Rattle.mg_engine_meaning_laws.specs.LawfulLaws.{crashes_hold, holds_on, pages_are_few, tables_are_seen};
ghost use Rattle.mg_no_damage_laws.specs.AlikeRoom.{crashes_with, lasts_with, one_with, seen_with, whole_with};
ghost use Rattle.mg_engine.specs.Places.{places};
ghost use Rattle.mg_engine.specs.KeeperLaws.{sessions_are_one, walks_come_to_all};

use crate::changing::{changes_go_on, write_row};
use crate::engine::Engine;
use crate::sizes::{copy_place, counts_fit, ranked, slots_fit, tell_counts};
use crate::taking::{take_to_mark, take_to_savepoint};
use mg_base::{Disk, Memory, TxNo};
use mg_core::Place;
use mg_engine_change_laws::{
    begins_tell_faults, changes_tell_faults, commits_tell_faults, commits_want_nothing,
    creations_keep_apart, events_take_no_page, events_tell_faults, events_write_none,
    page_writes_ask_one, page_writes_tell_faults, readings_tell_faults, readings_write_none,
    tables_are_made,
};
use mg_engine_meaning_laws::{
    begins_give, commits_go, looks_go_on, points_go_on, rollbacks_go, steps_go_on, tables_go_on,
    visits_go_on,
};
use mg_expr::Expr;
use mg_model::{Mode, Refusal, Rows, Table};
use mg_no_damage_laws::{
    begins_meet_no_damage, begins_take_few, commits_meet_no_damage, commits_take_none,
    creations_meet_no_damage, creations_take_few, events_meet_no_damage, events_take_none,
    readings_take_none, tables_meet_no_damage, visits_meet_no_damage,
};
use mg_records::{Found, Records, Write};
use mg_table_making::create_table;
use mg_tending::PageWrites;
use mg_value::{Name, Shape};
use std::alloc::Global;

impl<D: Disk> Records for Engine<D> {
    type Place = Place;

    ghost meaning = { means_with_room D.meaning places };

    fn copy_place(alloc: Global, place: &Place) -> Result<Place, Memory> {
        copy_place(alloc, place)
    }

    /// Begins a transaction for a session that has no active one, with the next number, which is drawn on the
    /// pages.
    ///
    /// # Errors
    ///
    /// `Offline` exactly where a page write has failed before; else `TransactionLimit` exactly where all numbers are
    /// drawn; `Memory`, and what the drawing is refused for: `DatabaseFull`, `DiskRead`, `Damaged`, `DiskWrite`. All
    /// goes on as it was then, and no number is drawn.
    fn begin(&mut self, session: u8, mode: Mode) -> Result<TxNo, Refusal> {
        begins_tell_faults::<D>();
        begins_meet_no_damage::<D>();
        begins_take_few::<D>();
        begins_give::<D, Place>();
        tell_counts(&self.core);
        self.core.begin(session, mode)
    }

    /// Begins a statement: under READ COMMITTED the transaction takes a new base.
    fn look(&mut self, t: TxNo) -> Result<(), Refusal> {
        events_tell_faults::<D>();
        events_write_none::<D>();
        events_take_no_page::<D>();
        events_meet_no_damage::<D>();
        events_take_none::<D>();
        looks_go_on::<D, Place>();
        self.core.look(t)
    }

    /// The table of a name that the transaction sees. One that was given to it is given again.
    ///
    /// # Errors
    ///
    /// As `Core::table`: `NoTable` exactly where the catalog that it sees names no such table.
    fn table(&mut self, t: TxNo, name: &Name) -> Result<Table, Refusal> {
        readings_tell_faults::<D>();
        readings_write_none::<D>();
        tables_meet_no_damage::<D>();
        readings_take_none::<D>();
        tables_go_on::<D, Place>();
        counts_fit(self.core.damage, self.core.shortages);
        self.core.table(t, name)
    }

    /// Visits the next record of a table after a place, the first one for None. It answers None exactly where
    /// there is no further record.
    ///
    /// # Errors
    ///
    /// As `Core::scan_step`.
    fn scan_step(
        &mut self,
        t: TxNo,
        table: &Table,
        after: Option<&Place>,
    ) -> Result<Option<Found<Place>>, Refusal> {
        readings_tell_faults::<D>();
        readings_write_none::<D>();
        visits_go_on::<D>();
        visits_meet_no_damage::<D>();
        readings_take_none::<D>();
        counts_fit(self.core.damage, self.core.shortages);
        let place = after.copied();
        slots_fit(place);
        let visited = self.core.scan_step(t, table, place);
        ranked(visited)
    }

    /// Tells what a statement found: the rows are those that the machine finds.
    fn found(
        &mut self,
        t: TxNo,
        name: &Name,
        filter: &Option<Expr>,
        rows: &Rows,
    ) -> Result<(), Refusal> {
        events_tell_faults::<D>();
        events_write_none::<D>();
        events_take_no_page::<D>();
        events_meet_no_damage::<D>();
        events_take_none::<D>();
        points_go_on::<D, Place>();
        self.core.found(t)
    }

    /// Writes a row, once the keys of its table are noted. A refusal changes nothing but whom the transaction waits on.
    ///
    /// # Errors
    ///
    /// As `note_keys` for what the noting reads; as `write_noted` of mg_taking_back, and as `Core::write_step`: `Offline`, `NotActive`; `ReadOnly` by the mode; the
    /// obstacle of the table's row of the catalog; `DuplicateKey` or `NoRow` by the view; the obstacle of the record; or
    /// what the pages are refused for, or `Memory`.
    fn write_step(&mut self, t: TxNo, table: &Table, write: &Write) -> Result<(), Refusal> {
        changes_go_on::<D>();
        counts_fit(self.core.damage, self.core.shortages);
        write_row(&mut self.core, t, table, write)
    }

    /// Makes a table: the rows of the catalog that say it come one after another, that of the table first.
    ///
    /// # Errors
    ///
    /// As `create_table` of mg_table_making: `Offline`, `NotActive`; `ReadOnly` by the mode; `DuplicateKey` where the
    /// transaction sees a row of the table; who is in the way by the record that speaks for that row's key; or what the
    /// pages are refused for, or `Memory`. Then no row has come.
    fn create_table(&mut self, t: TxNo, name: &Name, shape: &Shape) -> Result<(), Refusal> {
        changes_tell_faults::<D>();
        creations_meet_no_damage::<D, Place>();
        creations_take_few::<D, Place>();
        tables_are_made::<D, Place>();
        creations_keep_apart::<D, Place>();
        counts_fit(self.core.damage, self.core.shortages);
        create_table(&mut self.core, t, name, shape)
    }

    /// Sets a mark, to which one statement can be taken back.
    fn mark(&mut self, t: TxNo) -> Result<(), Refusal> {
        events_tell_faults::<D>();
        events_write_none::<D>();
        events_take_no_page::<D>();
        events_meet_no_damage::<D>();
        events_take_none::<D>();
        points_go_on::<D, Place>();
        self.core.mark(t)
    }

    /// Takes back all since the last mark, which ends, with the tables that were made since; where there is none, nothing.
    ///
    /// # Errors
    ///
    /// As `undo_mark` of mg_taking_back: where pages or memory are short, or a page can't be read or is damaged, the
    /// transaction is rolled back.
    fn undo_mark(&mut self, t: TxNo) -> Result<(), Refusal> {
        counts_fit(self.core.damage, self.core.shortages);
        take_to_mark(&mut self.core, t)
    }

    /// Sets a savepoint.
    fn savepoint(&mut self, t: TxNo, name: &Name) -> Result<(), Refusal> {
        events_tell_faults::<D>();
        events_write_none::<D>();
        events_take_no_page::<D>();
        events_meet_no_damage::<D>();
        events_take_none::<D>();
        points_go_on::<D, Place>();
        self.core.savepoint(t, name)
    }

    /// Takes back all since the last savepoint of a name, which stays; later ones go, and the tables that were made
    /// since. It answers false exactly where there is no such savepoint, and then nothing has changed.
    ///
    /// # Errors
    ///
    /// As `undo_mark`.
    fn back_to(&mut self, t: TxNo, name: &Name) -> Result<bool, Refusal> {
        counts_fit(self.core.damage, self.core.shortages);
        take_to_savepoint(&mut self.core, t, name)
    }

    /// Asks for a commit: what the transaction's commit has to write first is noted.
    fn commit_ask(&mut self, t: TxNo) -> Result<(), Refusal> {
        page_writes_tell_faults::<D>();
        page_writes_ask_one::<D>();
        commits_want_nothing::<D>();
        commits_meet_no_damage::<D>();
        commits_take_none::<D>();
        steps_go_on::<D, Place>();
        self.core.commit_ask(t)
    }

    /// Writes one page for a commit that was asked for: one that was noted, or one that has to be written
    /// before it. It answers true exactly where all that was noted is written, and then it writes none.
    fn commit_step(&mut self, t: TxNo) -> Result<bool, Refusal> {
        page_writes_tell_faults::<D>();
        page_writes_ask_one::<D>();
        commits_want_nothing::<D>();
        commits_meet_no_damage::<D>();
        commits_take_none::<D>();
        steps_go_on::<D, Place>();
        self.core.commit_step(t)
    }

    /// Commits a transaction, once all that was noted is written.
    fn commit_end(&mut self, t: TxNo) -> Result<(), Refusal> {
        commits_tell_faults::<D>();
        commits_want_nothing::<D>();
        commits_meet_no_damage::<D>();
        commits_take_none::<D>();
        commits_go::<D, Place>();
        self.core.commit_end(t)
    }

    /// Rolls a transaction back.
    fn rollback(&mut self, t: TxNo) -> Result<(), Refusal> {
        events_tell_faults::<D>();
        events_write_none::<D>();
        commits_want_nothing::<D>();
        events_meet_no_damage::<D>();
        events_take_none::<D>();
        rollbacks_go::<D, Place>();
        self.core.rollback(t)
    }

    ghost seen = { seen_with (means D.meaning places) (tables_are_seen D.meaning places) };

    ghost whole = { whole_with (means D.meaning places) (walks_come_to_all D.meaning places) };

    ghost few = { pages_are_few D.meaning places };

    ghost crashes = { crashes_with (means D.meaning places) (crashes_hold D.meaning places) };

    ghost lasts = { lasts_with (means D.meaning places) (holds_on D.meaning places) };

    ghost one = { one_with (means D.meaning places) (sessions_are_one D.meaning places) };
}

impl<D: Disk> PageWrites for Engine<D> {
    fn write_page(&mut self) -> Result<bool, Refusal> {
        match Engine::write_page(self) {
            Ok(page) => Ok(page.is_some()),
            Err(refusal) => Err(refusal),
        }
    }
}
