//! A row is written.

ghost use Rattle.std.specs.Option.{option_copied, option_map};
ghost use Rattle.std.specs.Prelude.{◌≡◌, ◌≢◌, IfOk, IfErr, IfSome, MatchOption, MatchResult, None, Some, OnOk, if◌then◌else◌};
ghost use Rattle.mg_base.specs.declared.transaction.TxState.TheVariants.{Active as IsActive};
ghost use Rattle.mg_directory.specs.Candidates.{at_key, by_table};
ghost use Rattle.mg_records.specs.Writing.{FitsShape};
ghost use Rattle.mg_row_writes.specs.Storing.{written_at};
ghost use Rattle.mg_sortkey.specs.KeyBytes.{key_bytes as bytes_of_key};
ghost use Rattle.mg_txlist.specs.TxList.{said};
ghost use Rattle.mg_works.specs.Works.{MayBeGiven};
ghost use Rattle.mg_core.specs.Cores.{IsCore};
ghost use Rattle.mg_core.specs.Reading.{FailsReading};
ghost use Rattle.mg_core.specs.Writing.{Allows, FailsKey, FailsRow, FailsWrite, FindsRow, IsWrong, MayOnlyRead, MayWrite, NamesKey, ReadsKnown, WhyOfKnown, Writes};

use crate::parts::Core;
use crate::states::StatesOf;
use mg_base::{Disk, RecId, TxNo};
use mg_batches::unlawful;
use mg_model::{Refusal, Table};
use mg_records::Write;
use mg_row_writes::{RowAt, row_at, written_key};
use mg_sortkey::key_bytes;
use mg_space::SpaceFault;
use mg_value::{Key, Value};

impl<D: Disk> Core<D> {
    /// Writes a row of a table that was given to an active transaction.
    ///
    /// It meets first the obstacle of the table's own row of the catalog, then the row in its view, then the
    /// obstacle of the record that speaks for the key. What its own change of the key was before is kept, and then
    /// the version is laid on the pages.
    ///
    /// # Errors
    ///
    /// As every event: `Offline`, `NotActive`; then the first that applies: `ReadOnly` by the mode;
    /// `UpdateConflict`, `LockConflict`, `Waits`, `Deadlock` and `InLimbo` by the table's obstacle; `DuplicateKey` or
    /// `NoRow` by the view; those five by the record's obstacle. Or what the pages are refused for, or `Memory`.
    /// Whom the transaction waits for has changed then, what was read, written out and counted, and no row.
    pub fn write_step(&mut self, t: TxNo, table: &Table, write: &Write) -> Result<(), Refusal>
        requires core { IsCore D.meaning self.old }
        requires given { MayBeGiven table.now }
        requires fits { FitsShape table.now.shape write.now }
        ensures core { IsCore D.meaning self.new }
        ensures writes { MatchResult result (λ _. Writes D.meaning self.old self.new t table.now write.now)
            (FailsWrite D.meaning self.old self.new t table.now write.now) }
    {
        match self.begin_event(t) {
            Ok(()) => {}
            Err(refusal) => return Err(refusal),
        }
        let wait = self.writer(t)?;
        self.pass_table(t, wait, table)?;
        let key = self.key_for(table, write)?;
        let rec = self.find_row(t, table, &key, write)?;
        self.pass_record(t, wait, rec)?;
        self.put_row(t, table, write, &key, rec)
    }

    /// Tells whether an active transaction that writes would wait.
    ///
    /// # Errors
    ///
    /// `ReadOnly` exactly where it only reads.
    pub fn writer(&self, t: TxNo) -> Result<bool, Refusal>
        requires core { IsCore D.meaning self.now }
        requires active { said self.now.list t.0 ≡ IsActive }
        ensures { MatchResult result (MayWrite self.now.works t.0) (MayOnlyRead self.now.works t.0) }
    {
        let Some(work) = self.works.work(t) else {
            unreachable!()
        };
        let mode = work.mode();
        if mode.read_only {
            return Err(Refusal::ReadOnly);
        }
        Ok(mode.wait)
    }

    /// The key of a write. A lawful one has a key.
    ///
    /// # Errors
    ///
    /// `Memory`; `Damaged` exactly where the key is NULL.
    fn key_for(&mut self, table: &Table, write: &Write) -> Result<Key, Refusal>
        requires core { IsCore D.meaning self.old }
        ensures core { IsCore D.meaning self.new }
        ensures key { IfOk result (λ key. key ≡ written_at table.now write.now) }
        ensures some { OnOk result (written_at table.now write.now ≢ Value.Null) }
        ensures same { OnOk result (self.new ≡ self.old) }
        ensures fails { IfErr result (FailsKey self.old self.new table.now write.now) }
    {
        names_key(write);
        match written_key(self.store.alloc(), table, write) {
            Ok(Some(key)) => Ok(key),
            Ok(None) => Err(self.refuse(SpaceFault::Damaged(unlawful()))),
            Err(_) => Err(Refusal::Memory),
        }
    }

    /// The record that speaks for the key of a write, where the row in the view allows the write.
    ///
    /// # Errors
    ///
    /// `DuplicateKey` or `NoRow`, where it doesn't; or what the reading is refused for.
    pub fn find_row(
        &mut self,
        t: TxNo,
        table: &Table,
        key: &Key,
        write: &Write,
    ) -> Result<Option<RecId>, Refusal>
        requires core { IsCore D.meaning self.old }
        requires given { MayBeGiven table.now }
        ensures core { IsCore D.meaning self.new }
        ensures finds { MatchResult result (FindsRow D.meaning self.old self.new t table.now key.now write.now)
            (FailsRow D.meaning self.old self.new t table.now key.now write.now) }
    {
        let found = self.row_of_key(t, table, key)?;
        match refusal_of(write, found.row.is_some()) {
            None => Ok(found.rec),
            Some(refusal) => Err(refusal),
        }
    }

    /// The record that speaks for a key, with the row in the view. It is looked for among the candidates that
    /// the table's directory has, or among all its records where it has none.
    ///
    /// # Errors
    ///
    /// What the reading is refused for.
    pub fn row_of_key(&mut self, t: TxNo, table: &Table, key: &Key) -> Result<RowAt, Refusal>
        requires core { IsCore D.meaning self.old }
        requires given { MayBeGiven table.now }
        ensures core { IsCore D.meaning self.new }
        ensures reads { MatchResult result (ReadsKnown D.meaning self.old self.new t table.now key.now)
            (FailsReading D.meaning self.old self.new (WhyOfKnown D.meaning self.old t table.now key.now)) }
    {
        let candidates = self.candidates_for(table, key);
        let recs = slice_of(&candidates);
        let states = StatesOf::new(&self.list);
        match row_at(
            &mut self.store,
            table,
            key.value(),
            &states,
            &self.live,
            t,
            recs,
        ) {
            Ok(found) => Ok(found),
            Err(fault) => Err(self.refuse(fault)),
        }
    }

    /// The candidates for a key among the records of a table. None where the table has no directory, and
    /// for want of memory: then its records are gone through.
    fn candidates_for(&self, table: &Table, key: &Key) -> Option<Vec<RecId>>
        ensures { IfSome result (λ recs. at_key (by_table self.now.directories.dirs table.now.pointer.0)
            (bytes_of_key key.now) ≡ Some recs.items) }
    {
        let alloc = self.store.alloc();
        let mut bytes = Vec::new(alloc);
        match key_bytes(key.value(), &mut bytes) {
            Ok(()) => {}
            Err(_) => return None,
        }
        match self.directories.candidates(alloc, table.pointer, &bytes) {
            Ok(found) => found,
            Err(_) => None,
        }
    }
}

/// The records of a list that may be there.
fn slice_of(recs: &Option<Vec<RecId>>) -> Option<&[RecId]>
    ensures { option_copied result ≡ option_map (λ list. list.items) recs.now }
{
    match recs {
        None => None,
        Some(list) => Some(list.as_slice()),
    }
}

/// The key that a write names is not NULL.
fn names_key(write: &Write)
    ensures { NamesKey write.now }
{
    match write {
        Write::Insert(_) => {}
        Write::Change(key, _) => is_some_key(key),
        Write::Erase(key) => is_some_key(key),
    }
}

/// A key is not NULL.
fn is_some_key(key: &Key)
    ensures { key.now ≢ Value.Null }
{
    let _value = key.value();
}

/// What a write is refused for by whether the view has a row with its key.
fn refusal_of(write: &Write, is_there: bool) -> Option<Refusal>
    ensures { MatchOption result (Allows write.now is_there) (IsWrong write.now is_there) }
{
    match write {
        Write::Insert(_) => told_if(is_there, Refusal::DuplicateKey),
        Write::Change(_, _) => told_if(!is_there, Refusal::NoRow),
        Write::Erase(_) => told_if(!is_there, Refusal::NoRow),
    }
}

/// A refusal, where it holds.
fn told_if(holds: bool, refusal: Refusal) -> Option<Refusal>
    ensures { result ≡ (if holds then Some refusal else None) }
{
    if holds { Some(refusal) } else { None }
}
