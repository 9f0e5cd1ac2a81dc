//! The steps of a commit, and page writes.

ghost use Rattle.std.specs.Prelude.{MatchResult};
ghost use Rattle.mg_core.specs.Cores.{IsCore, RefusesCall};
ghost use Rattle.mg_core.specs.Committing.{AsksCommit, HasSession, StepsCommit, WritesPage};

use crate::parts::Core;
use crate::refusing::{offline_refusal, write_refusal};
use mg_base::{Disk, PageNo, TxNo};
use mg_model::Refusal;

impl<D: Disk> Core<D> {
    /// Writes one dirty page: the least one, or one that must precede it. The answer is its number, None
    /// exactly where no page is dirty. It takes no memory.
    ///
    /// # Errors
    ///
    /// `Offline` exactly where a page write has failed; `DiskWrite` only where the disk's count of faults
    /// rose in this call.
    pub fn write_page(&mut self) -> Result<Option<PageNo>, Refusal>
        requires { IsCore D.meaning self.old }
        ensures core { IsCore D.meaning self.new }
        ensures writes { WritesPage D.meaning self.old self.new result }
    {
        match self.store.online() {
            Ok(()) => {}
            Err(fault) => return Err(offline_refusal(fault)),
        }
        let Some(goal) = self.store.least_dirty() else {
            return Ok(None);
        };
        match self.store.write_one(goal) {
            Ok(page) => Ok(Some(page)),
            Err(fault) => Err(write_refusal(fault)),
        }
    }

    /// Asks for a commit: every dirty page is marked for the transaction's session. It takes no memory.
    ///
    /// # Errors
    ///
    /// `Offline` exactly where a page write has failed; else `NotActive` exactly where the transaction
    /// isn't active.
    pub fn commit_ask(&mut self, t: TxNo) -> Result<(), Refusal>
        requires { IsCore D.meaning self.old }
        ensures core { IsCore D.meaning self.new }
        ensures asks { AsksCommit self.old self.new t.0 result }
    {
        let session = self.session(t)?;
        self.store.mark(session);
        self.works.ask(t);
        Ok(())
    }

    /// Writes one page for a commit that was asked for: the least of those that were marked for it and not
    /// written since, or one that must precede it. It answers true exactly where all are written. It takes
    /// no memory.
    ///
    /// # Errors
    ///
    /// As `commit_ask`; `DiskWrite` only where the disk's count of faults rose in this call.
    pub fn commit_step(&mut self, t: TxNo) -> Result<bool, Refusal>
        requires { IsCore D.meaning self.old }
        ensures core { IsCore D.meaning self.new }
        ensures steps { StepsCommit D.meaning self.old self.new t.0 result }
    {
        let session = self.session(t)?;
        let Some(goal) = self.store.least_marked(session) else {
            return Ok(true);
        };
        match self.store.write_one(goal) {
            Ok(_) => Ok(false),
            Err(fault) => Err(write_refusal(fault)),
        }
    }

    /// The session of an active transaction.
    ///
    /// # Errors
    ///
    /// As `commit_ask`.
    fn session(&self, t: TxNo) -> Result<u8, Refusal>
        requires { IsCore D.meaning self.now }
        ensures { MatchResult result (HasSession self.now t.0) (RefusesCall self.now t.0) }
    {
        match self.store.online() {
            Ok(()) => {}
            Err(fault) => return Err(offline_refusal(fault)),
        }
        match self.works.work(t) {
            Some(work) => Ok(work.session()),
            None => Err(Refusal::NotActive {
                state: self.list.state(t),
            }),
        }
    }
}
