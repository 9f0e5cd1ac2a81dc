//! Who waits for whom.

ghost use Rattle.std.specs.Prelude.{◌≡◌, ◌↔◌, [], None, Some, IsTrue, OnOk, OnErr};
ghost use Rattle.mg_model.specs.Answers.{leads_to};
ghost use Rattle.mg_model.specs.WaitLaws.{Leads};
ghost use Rattle.mg_waits.specs.Waits.{edges_in, NowWaits, IsVerdict};

use crate::verdict::Verdict;
use mg_base::{Memory, TxNo, TxState};
use std::alloc::Global;
use std::collections::BTreeMap;
use std::marker::Model;

/// Who waits for whom: each transaction that waits, with the one that it waits for.
#[derive(Debug, Drop)]
pub struct Waits {
    on: BTreeMap<u32, u32>,
}

impl Model for Waits {
    ghost use Rattle.std.specs.Prelude.{List, ℕ};

    // Each transaction that waits, beside the one that it waits for.
    ghost Value = { List (ℕ × ℕ) };

    ghost view = { λ waits. waits.on.entries };
}

impl Waits {
    /// Nobody waits. It takes no memory.
    pub fn new(alloc: Global) -> Waits
        ensures { result ≡ [] }
    {
        Waits {
            on: BTreeMap::new(alloc),
        }
    }

    /// The transaction waits for this one from now on, and for no other.
    ///
    /// # Errors
    ///
    /// `Memory` only, and only where the transaction waited for nobody. Then nothing has changed.
    pub fn note(&mut self, t: TxNo, on: TxNo) -> Result<(), Memory>
        ensures ok { OnOk result
            (NowWaits (edges_in self.old) (edges_in self.new) t.0 (Some on.0)) }
        ensures err { OnErr result (self.new ≡ self.old) }
        ensures absent { OnErr result (edges_in self.old t.0 ≡ None) }
    {
        self.on.insert(t.0, on.0)?;
        Ok(())
    }

    /// The transaction waits for nobody from now on. It takes no memory.
    pub fn over(&mut self, t: TxNo)
        ensures { NowWaits (edges_in self.old) (edges_in self.new) t.0 None }
    {
        self.on.remove(&t.0);
    }

    /// Tells whether who waits for whom leads from one transaction to another one, in so many steps
    /// at most.
    fn leads_within(&self, most: usize, from: u32, to: u32) -> bool
        ensures { result ≡ leads_to (edges_in self.now) most from to }
    {
        let mut at = from;
        for step in 0..most {
            if at == to {
                return true;
            }
            let Some(next) = self.on.get(&at).copied() else {
                return false;
            };
            at = next;
        }
        at == to
    }

    /// Tells whether to wait for the other one would never end: whom that one waits for, and so on,
    /// leads to the transaction.
    fn closes(&self, t: TxNo, by: TxNo) -> bool
        ensures { IsTrue result ↔ Leads (edges_in self.now) t.0 by.0 }
    {
        // A way without a turn leaves each transaction that waits once.
        self.leads_within(self.on.len(), by.0, t.0)
    }

    /// What t is told of `by`, which is in its way and of which this has become; `wait` tells
    /// whether it would wait. None exactly where `by` is dead: then nothing is in the way.
    pub fn verdict(&self, t: TxNo, wait: bool, by: TxNo, state: TxState) -> Option<Verdict>
        ensures { IsVerdict (edges_in self.now) t.0 by.0 state wait result }
    {
        match state {
            TxState::Dead => None,
            TxState::Committed => Some(Verdict::Update),
            TxState::Limbo => Some(Verdict::Limbo),
            TxState::Active => Some(self.of_active(t, wait, by)),
        }
    }

    /// What t is told of an active transaction that is in its way.
    fn of_active(&self, t: TxNo, wait: bool, by: TxNo) -> Verdict
        ensures { IsVerdict (edges_in self.now) t.0 by.0 TxState.Active wait (Some result) }
    {
        if !wait {
            return Verdict::Lock;
        }
        if self.closes(t, by) {
            Verdict::Deadlock
        } else {
            Verdict::Wait
        }
    }
}
