//! The beginning of a transaction.

ghost use Rattle.std.specs.Prelude.{◌≡◌, ◌<◌, ◌++◌, ◌∷◌, [], false, OnOk, OnErr};
ghost use Rattle.mg_snap.specs.Live.{after_enter};
ghost use Rattle.mg_txlist.specs.TxList.{next_said};
ghost use Rattle.mg_works.specs.Works.{begun, has_session as has_session_in};
ghost use Rattle.mg_core.specs.Cores.{IsCore};
ghost use Rattle.mg_core.specs.Beginning.{BeginsFor};

use crate::parts::Core;
use crate::refusing::offline_refusal;
use mg_base::{Disk, Memory, TxNo};
use mg_header::GREATEST_NEXT;
use mg_model::{Mode, Refusal};

impl<D: Disk> Core<D> {
    /// Begins a transaction for a session that has none, with the next number, which is drawn on the
    /// pages.
    ///
    /// # Errors
    ///
    /// `Offline` exactly where a page write has failed; else `TransactionLimit` exactly where all numbers
    /// are drawn; `Memory`, or what the drawing is refused for. In memory all is as before then, but for
    /// what was counted.
    pub fn begin(&mut self, session: u8, mode: Mode) -> Result<TxNo, Refusal>
        requires core { IsCore D.meaning self.old }
        requires session { session < 32 }
        requires free { has_session_in self.old.works session ≡ false }
        ensures core { IsCore D.meaning self.new }
        ensures begins { BeginsFor D.meaning self.old self.new session mode result }
    {
        match self.store.online() {
            Ok(()) => {}
            Err(fault) => return Err(offline_refusal(fault)),
        }
        let t = self.list.next();
        if t.0 >= GREATEST_NEXT {
            return Err(Refusal::TransactionLimit);
        }
        match self.enter(t, session, mode) {
            Ok(()) => {}
            Err(_) => return Err(Refusal::Memory),
        }
        match self.list.draw(&mut self.store) {
            Ok(drawn) => Ok(drawn),
            Err(fault) => {
                self.live.retract(t);
                self.works.end(t);
                Err(self.refuse(fault))
            }
        }
    }

    /// The next transaction enters in memory, before its number is drawn.
    ///
    /// # Errors
    ///
    /// `Memory` only. Nothing has changed then.
    fn enter(&mut self, t: TxNo, session: u8, mode: Mode) -> Result<(), Memory>
        requires core { IsCore D.meaning self.old }
        requires number { t.0 ≡ next_said self.old.list }
        requires below { t.0 < GREATEST_NEXT }
        requires session { session < 32 }
        requires free { has_session_in self.old.works session ≡ false }
        ensures ok { OnOk result (self.new ≡ record self.old {
          works = self.old.works ++ begun t.0 session mode ∷ [];
          live = after_enter self.old.live t.0;
        }) }
        ensures err { OnErr result (self.new ≡ self.old) }
    {
        self.works.begin(t, session, mode)?;
        match self.live.enter(t) {
            Ok(()) => Ok(()),
            Err(memory) => {
                self.works.end(t);
                Err(memory)
            }
        }
    }
}
