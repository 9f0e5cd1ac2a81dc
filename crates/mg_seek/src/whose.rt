//! Which versions of a record are wanted, by who wrote them.

ghost use Rattle.std.specs.Prelude.{◌≡◌};
ghost use Rattle.mg_chain.specs.Chains.{takes_version};
ghost use Rattle.mg_chain.specs.Views.{is_dead as is_dead_state};
ghost use Rattle.mg_seek.specs.Versions.{wants as wanted_of};

use mg_base::{TxNo, TxState};
use mg_chain::States;
use mg_snap::Live;

/// Whose versions of a record are wanted.
#[derive(Clone, Copy, Debug, PartialEq, Eq)]
pub enum Wanted {
    /// Anybody's.
    Any,
    /// Those of all transactions but dead ones.
    Living,
    /// Those that a transaction sees: its own, and those of committed ones that its base sees.
    SeenBy(TxNo),
}

/// Tells whether the versions of a transaction are wanted.
pub(crate) fn wants<S: States>(states: &S, live: &Live, wanted: Wanted, by: TxNo) -> bool
    ensures { result ≡ wanted_of (S.state_of states.now) live.now wanted by.0 }
{
    match wanted {
        Wanted::Any => true,
        Wanted::Living => !is_dead(states.state(by)),
        Wanted::SeenBy(t) => takes(states, live, t, by),
    }
}

/// Tells whether this is the state of a dead transaction.
fn is_dead(state: TxState) -> bool
    ensures { result ≡ is_dead_state state }
{
    matches!(state, TxState::Dead)
}

/// Tells whether t sees the versions of a transaction.
fn takes<S: States>(states: &S, live: &Live, t: TxNo, by: TxNo) -> bool
    ensures { result ≡ takes_version (S.state_of states.now) live.now t.0 by.0 }
{
    if by.0 == t.0 {
        return true;
    }
    matches!(states.state(by), TxState::Committed) && live.sees(t, by)
}
