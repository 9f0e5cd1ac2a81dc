//! What has become of transactions, as the layers below ask it.

ghost use Rattle.std.specs.Prelude.{◌≡◌};
ghost use Rattle.mg_txlist.specs.TxList.{IsTxList, said};

use mg_base::{TxNo, TxState};
use mg_chain::States;
use mg_txlist::TxList;

/// A transaction list, lent to tell what has become of transactions.
#[derive(Drop)]
pub struct StatesOf<'a> {
    list: &'a TxList,
    ghost lawful: { IsTxList list.now },
}

impl<'a> StatesOf<'a> {
    /// What a list tells.
    pub fn new(list: &'a TxList) -> StatesOf<'a>
        requires { IsTxList list.now }
        ensures { result.list.now ≡ list.now }
    {
        StatesOf { list }
    }
}

impl<'a> States for StatesOf<'a> {
    ghost state_of = { λ s t. said s.list.now t };

    fn state(&self, t: TxNo) -> TxState {
        self.list.state(t)
    }
}
