//! The end of a commit.

ghost use Rattle.std.specs.Prelude.{MatchResult};
ghost use Rattle.mg_core.specs.Cores.{IsCore};
ghost use Rattle.mg_core.specs.Ending.{Commits, RefusesCommit};

use crate::parts::Core;
use crate::refusing::bits_refusal;
use mg_base::{Disk, TxNo};
use mg_model::Refusal;

impl<D: Disk> Core<D> {
    /// Commits a transaction: its bits are changed, written with what must precede them, and settled. Then
    /// its work and its base are gone. It takes no memory, and reads no page.
    ///
    /// # Errors
    ///
    /// `Offline` exactly where a page write has failed; else `NotActive` exactly where the transaction
    /// isn't active; `DiskWrite` only where the disk's count of faults rose in this call. In memory it is
    /// as before then, but that its wait is over.
    pub fn commit_end(&mut self, t: TxNo) -> Result<(), Refusal>
        requires { IsCore D.meaning self.old }
        ensures core { IsCore D.meaning self.new }
        ensures commits { MatchResult result (λ _. Commits D.meaning self.old self.new t.0)
            (RefusesCommit D.meaning self.old self.new t.0) }
    {
        match self.begin_event(t) {
            Ok(()) => {}
            Err(refusal) => return Err(refusal),
        }
        match self.list.mark_committed(&mut self.store, t) {
            Ok(()) => {}
            Err(fault) => return Err(bits_refusal(fault)),
        }
        self.live.leave(t);
        self.works.end(t);
        Ok(())
    }
}
