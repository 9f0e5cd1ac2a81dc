//! The list in memory, and what it says.

ghost use Rattle.std.specs.Prelude.{◌≡◌, ◌≢◌, ◌<◌, ◌≤◌, ◌+◌, ◌-◌, ◌/◌, ℕ, length, IfOk};
ghost use Rattle.mg_base.specs.declared.transaction.TxState.TheVariants.{Active as ActiveState, Committed as CommittedState, Dead as DeadState};
ghost use Rattle.mg_image.specs.Inventory.{settled as settled_state};
ghost use Rattle.mg_txlist.specs.TxList.{EndsIn, IsTxList, bits_said, next_said, own_said, said};

use mg_base::{Bytes, TxNo, TxState};
use mg_space::places_of;
use mg_tip::state_at;
use std::alloc::Global;

/// A transaction inventory page: its number, and its bytes as the cache shows them.
#[derive(Drop)]
pub struct TipPage {
    pub page: u32,
    pub bytes: Bytes,
}

/// What has become of each transaction.
#[derive(Drop)]
pub struct TxList {
    pub(crate) size: u32,
    // The next number when the list was loaded: lower ones were drawn before.
    pub(crate) first: u32,
    // By sequence.
    pub(crate) pages: Vec<TipPage>,
    // Of the numbers from `first` on.
    pub(crate) own: Vec<TxState>,
}

impl TxList {
    /// The number that the next transaction draws.
    pub fn next(&self) -> TxNo
        requires { IsTxList self.now }
        ensures { result.0 ≡ next_said self.now }
    {
        TxNo(self.first + self.own.len() as u32)
    }

    /// What has become of a transaction: of the system's, number 0, that it is committed; of one
    /// that was not drawn, that it is dead.
    #[tactic(auto, unfolding(crate::specs::TxList::said))]
    pub fn state(&self, t: TxNo) -> TxState
        requires { IsTxList self.now }
        ensures { result ≡ said self.now t.0 }
    {
        if t.0 == 0 {
            return TxState::Committed;
        }
        if t.0 < self.first {
            return settled(self.bits(t.0));
        }
        self.own_state(t.0 - self.first)
    }

    /// The least number from `from` on that is not committed, or `below` where there is none below
    /// it.
    pub fn first_open(&self, from: TxNo, below: TxNo) -> TxNo
        requires { IsTxList self.now }
        ensures before { (t : ℕ) → from.0 ≤ t → t < result.0 → said self.now t ≡ CommittedState }
        ensures open { result.0 ≢ below.0 → said self.now result.0 ≢ CommittedState }
        ensures least { result.0 ≢ below.0 → (from.0 ≤ result.0) × (result.0 < below.0) }
    {
        for t in from.0..below.0 {
            if self.state(TxNo(t)) != TxState::Committed {
                return TxNo(t);
            }
        }
        below
    }

    /// Ends an active transaction as dead. No page is changed, and no memory is taken.
    pub fn mark_dead(&mut self, t: TxNo)
        requires list { IsTxList self.old }
        requires active { said self.old t.0 ≡ ActiveState }
        ensures list { IsTxList self.new }
        ensures ends { EndsIn self.old self.new t.0 DeadState }
        ensures pages { self.new.pages ≡ self.old.pages }
    {
        self.end(t.0, TxState::Dead);
    }

    /// Says of a number of this run what has become of it.
    pub(crate) fn end(&mut self, t: u32, state: TxState)
        requires list { IsTxList self.old }
        requires first { self.old.first ≤ t }
        requires below { t < next_said self.old }
        ensures list { IsTxList self.new }
        ensures ends { EndsIn self.old self.new t state }
        ensures pages { self.new.pages ≡ self.old.pages }
    {
        self.own[(t - self.first) as usize] = state;
    }

    /// What has become of a number of this run, counted from the first.
    fn own_state(&self, n: u32) -> TxState
        ensures { result ≡ own_said self.now n }
    {
        match self.own.get(n as usize) {
            Some(state) => *state,
            None => TxState::Dead,
        }
    }

    /// What the bits of a number say that was drawn.
    fn bits(&self, t: u32) -> TxState
        requires list { IsTxList self.now }
        requires below { t < next_said self.now }
        ensures { result ≡ bits_said self.now t }
    {
        let places = places_of(self.size);
        let page = &self.pages[(t / places) as usize];
        state_at(page.bytes.as_slice(), t % places)
    }
}

/// What the bits of a number mean that was drawn before this run: active counts as dead.
fn settled(state: TxState) -> TxState
    ensures { result ≡ settled_state state }
{
    match state {
        TxState::Active => TxState::Dead,
        TxState::Limbo => TxState::Limbo,
        TxState::Dead => TxState::Dead,
        TxState::Committed => TxState::Committed,
    }
}
