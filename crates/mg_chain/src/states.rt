//! What has become of transactions.

ghost use Rattle.std.specs.Prelude.{◌≡◌, ℕ};
ghost use Rattle.mg_base.specs.declared.transaction.TxState.{TxState as AnyState};

use mg_base::{TxNo, TxState};

/// Tells what has become of each transaction.
pub trait States {
    ghost state_of: { Self → ℕ → AnyState };

    /// What has become of a transaction.
    fn state(&self, t: TxNo) -> TxState
        ensures { result ≡ state_of self.now t.0 };
}
