//! A row is put on the pages, and what it was before is kept.

ghost use Rattle.std.specs.Prelude.{◌≡◌, ◌≤◌, None, MatchResult, false};
ghost use Rattle.mg_records.specs.Writing.{FitsShape};
ghost use Rattle.mg_works.specs.Works.{MayBeGiven};
ghost use Rattle.mg_core.specs.Cores.{IsCore};
ghost use Rattle.mg_core.specs.Putting.{FailsKept, FailsPut, LaysKept, LaysKeptIn, NotesRow, PutsRow};

use crate::parts::Core;
use crate::states::StatesOf;
use mg_base::{Disk, PageNo, RecId, TxNo};
use mg_batches::unlawful;
use mg_model::{Refusal, Table};
use mg_records::Write;
use mg_row_writes::{Before, before_at, keys_may_be_laid, lay, may_be_stored, stored_version};
use mg_sortkey::key_bytes;
use mg_space::SpaceFault;
use mg_value::Key;
use mg_version::Version;

impl<D: Disk> Core<D> {
    /// Puts the row of a write at its key, in the record that speaks for it or in one that is made.
    ///
    /// # Errors
    ///
    /// `Memory`, or what the pages are refused for.
    pub fn put_row(
        &mut self,
        t: TxNo,
        table: &Table,
        write: &Write,
        key: &Key,
        rec: Option<RecId>,
    ) -> Result<(), Refusal>
        requires core { IsCore D.meaning self.old }
        requires online { self.old.store.offline ≡ None }
        requires given { MayBeGiven table.now }
        requires fits { FitsShape table.now.shape write.now }
        ensures core { IsCore D.meaning self.new }
        ensures puts { MatchResult result (λ _. PutsRow D.meaning self.old self.new t table.now write.now key.now rec)
            (FailsPut D.meaning self.old self.new t table.now write.now key.now rec) }
    {
        let version = match stored_version(self.store.alloc(), table, t, write) {
            Ok(version) => version,
            Err(_) => return Err(Refusal::Memory),
        };
        let states = StatesOf::new(&self.list);
        match before_at(&mut self.store, table, rec, &states, &self.live, t) {
            Ok(before) => {
                let at = self.lay_kept(t, table, write, key, before, &version)?;
                self.note_row(table.pointer, key, at);
                Ok(())
            }
            Err(fault) => Err(self.refuse(fault)),
        }
    }

    /// Notes the record of a row under its key, if the table has a directory. It is noted whenever a row is
    /// written there: so nobody asks who spoke for the key before. What can't be noted drops the directory.
    fn note_row(&mut self, first: PageNo, key: &Key, rec: RecId)
        requires core { IsCore D.meaning self.old }
        ensures core { IsCore D.meaning self.new }
        ensures notes { NotesRow self.old self.new first.0 key.now rec }
    {
        let mut bytes = Vec::new(self.store.alloc());
        match key_bytes(key.value(), &mut bytes) {
            Ok(()) => self.directories.note(first, &bytes, rec),
            Err(_) => self.directories.drop_table(first),
        }
    }

    /// Keeps what a transaction's own change of a key was, takes back the asking for its commit, and lays the entries
    /// of a write's row and its version; the record is told in which that was.
    /// What was kept is taken back where the version is not laid.
    ///
    /// # Errors
    ///
    /// `Memory`, or what the pages are refused for.
    pub fn lay_kept(
        &mut self,
        t: TxNo,
        table: &Table,
        write: &Write,
        key: &Key,
        before: Before,
        version: &Version,
    ) -> Result<RecId, Refusal>
        requires core { IsCore D.meaning self.old }
        requires given { MayBeGiven table.now }
        requires apart { version.now.primary ≡ false }
        requires stored { 1 ≤ version.now.format }
        ensures core { IsCore D.meaning self.new }
        ensures lays { MatchResult result
            (LaysKeptIn D.meaning self.old self.new t.0 table.now write.now key.now before version.now)
            (FailsKept D.meaning self.old self.new t.0 table.now write.now key.now before version.now) }
    {
        let size = self.store.geometry().size;
        if !may_be_stored(size, table.pointer, version) {
            return Err(self.refuse(SpaceFault::Damaged(unlawful())));
        }
        let short = match keys_may_be_laid(self.store.alloc(), size, table, write) {
            Ok(short) => short,
            Err(_) => return Err(Refusal::Memory),
        };
        if !short {
            return Err(self.refuse(SpaceFault::Damaged(unlawful())));
        }
        let Before { way, was } = before;
        // First kept: want of memory then leaves the pages alone.
        match self.works.keep(t, table.pointer.0, key, was) {
            Ok(()) => {}
            Err(_) => return Err(Refusal::Memory),
        }
        // Its new pages have no mark of a commit that was asked for.
        self.works.unask(t);
        match lay(&mut self.store, table, way, write, version) {
            Ok(rec) => Ok(rec),
            Err(fault) => {
                self.works.retract(t);
                Err(self.refuse(fault))
            }
        }
    }
}
