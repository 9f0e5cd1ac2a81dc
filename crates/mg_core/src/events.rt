//! Events that change what is in memory alone.

ghost use Rattle.std.specs.Prelude.{◌≡◌, None, Some, MatchResult};
ghost use Rattle.mg_core.specs.Cores.{Continues, IsCore, RefusesCall};
ghost use Rattle.mg_core.specs.Events.{EndsWait, IsRefused, Looks, keeps_base as keeps_base_in, RollsBack, SetsPoint, with_base};

use crate::parts::Core;
use crate::refusing::offline_refusal;
use mg_base::{Disk, TxNo};
use mg_model::Refusal;
use mg_value::Name;

impl<D: Disk> Core<D> {
    /// Begins the call of a transaction.
    ///
    /// # Errors
    ///
    /// `Offline` exactly where a page write has failed; else `NotActive` exactly where the transaction
    /// isn't active, with its state.
    pub fn begin_call(&self, t: TxNo) -> Result<(), Refusal>
        requires { IsCore D.meaning self.now }
        ensures { MatchResult result (λ _. Continues self.now t.0) (RefusesCall self.now t.0) }
    {
        match self.store.online() {
            Ok(()) => {}
            Err(fault) => return Err(offline_refusal(fault)),
        }
        match self.works.work(t) {
            Some(_) => Ok(()),
            None => Err(Refusal::NotActive {
                state: self.list.state(t),
            }),
        }
    }

    /// Begins an event of a transaction, whose wait is over with it.
    ///
    /// # Errors
    ///
    /// As `begin_call`.
    pub fn begin_event(&mut self, t: TxNo) -> Result<(), Refusal>
        requires { IsCore D.meaning self.old }
        ensures core { IsCore D.meaning self.new }
        ensures wait { EndsWait self.old self.new t.0 }
        ensures begins { MatchResult result (λ _. Continues self.old t.0) (RefusesCall self.old t.0) }
    {
        self.waits.over(t);
        self.begin_call(t)
    }

    /// Begins a statement: under READ COMMITTED the transaction takes a new base, and the tables that
    /// were given to it are no longer known.
    ///
    /// # Errors
    ///
    /// As every event: `Offline`, `NotActive`.
    pub fn look(&mut self, t: TxNo) -> Result<(), Refusal>
        requires { IsCore D.meaning self.old }
        ensures core { IsCore D.meaning self.new }
        ensures looks { MatchResult result (λ _. Looks self.old self.new t.0) (IsRefused self.old self.new t.0) }
    {
        match self.begin_event(t) {
            Ok(()) => {}
            Err(refusal) => return Err(refusal),
        }
        self.take_base(t);
        Ok(())
    }

    /// Takes a new base for a transaction, and forgets the tables that were given to it, unless it keeps
    /// the base that it has.
    fn take_base(&mut self, t: TxNo)
        requires { IsCore D.meaning self.old }
        ensures core { IsCore D.meaning self.new }
        ensures takes { self.new ≡ with_base t.0 self.old }
    {
        if self.keeps_base(t) {
            return;
        }
        self.works.forget_tables(t);
        self.live.rebase(t);
    }

    /// Tells whether a transaction keeps the base that it took when it began.
    fn keeps_base(&self, t: TxNo) -> bool
        requires { IsCore D.meaning self.now }
        ensures { result ≡ keeps_base_in self.now.works t.0 }
    {
        match self.works.work(t) {
            Some(work) => work.mode().snapshot,
            None => true,
        }
    }

    /// Sets a mark, to which one statement can be taken back.
    ///
    /// # Errors
    ///
    /// As every event, or `Memory`. Nothing is set then.
    pub fn mark(&mut self, t: TxNo) -> Result<(), Refusal>
        requires { IsCore D.meaning self.old }
        ensures core { IsCore D.meaning self.new }
        ensures sets { SetsPoint self.old self.new t.0 None result }
    {
        match self.begin_event(t) {
            Ok(()) => {}
            Err(refusal) => return Err(refusal),
        }
        match self.works.set_mark(t) {
            Ok(()) => Ok(()),
            Err(_) => Err(Refusal::Memory),
        }
    }

    /// Sets a savepoint.
    ///
    /// # Errors
    ///
    /// As `mark`.
    pub fn savepoint(&mut self, t: TxNo, name: &Name) -> Result<(), Refusal>
        requires { IsCore D.meaning self.old }
        ensures core { IsCore D.meaning self.new }
        ensures sets { SetsPoint self.old self.new t.0 (Some name.now) result }
    {
        match self.begin_event(t) {
            Ok(()) => {}
            Err(refusal) => return Err(refusal),
        }
        match self.works.set_savepoint(t, name) {
            Ok(()) => Ok(()),
            Err(_) => Err(Refusal::Memory),
        }
    }

    /// Tells what a statement found: nothing changes but that the transaction's wait is over.
    ///
    /// # Errors
    ///
    /// As every event: `Offline`, `NotActive`.
    pub fn found(&mut self, t: TxNo) -> Result<(), Refusal>
        requires { IsCore D.meaning self.old }
        ensures core { IsCore D.meaning self.new }
        ensures wait { EndsWait self.old self.new t.0 }
        ensures begins { MatchResult result (λ _. Continues self.old t.0) (RefusesCall self.old t.0) }
    {
        self.begin_event(t)
    }

    /// Rolls a transaction back: it is dead, and its work is gone. It takes no memory, and reads and
    /// writes no page.
    ///
    /// # Errors
    ///
    /// As every event: `Offline`, `NotActive`.
    pub fn rollback(&mut self, t: TxNo) -> Result<(), Refusal>
        requires { IsCore D.meaning self.old }
        ensures core { IsCore D.meaning self.new }
        ensures rolls { MatchResult result (λ _. RollsBack self.old self.new t.0) (IsRefused self.old self.new t.0) }
    {
        match self.begin_event(t) {
            Ok(()) => {}
            Err(refusal) => return Err(refusal),
        }
        self.list.mark_dead(t);
        self.live.leave(t);
        self.works.end(t);
        Ok(())
    }
}
