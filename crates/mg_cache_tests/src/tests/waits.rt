//! Who waits for whom.

use super::calls::{Begins, Bench, run_each};
use mg_base::{Memory, TxNo, TxState};
use mg_waits::{Verdict, Waits};
use std::alloc::Global;
use std::test::Fail;

/// A call, and what it answers.
#[derive(Clone, Copy)]
pub enum Call {
    /// A transaction waits for another one.
    Note(u32, u32),
    /// A transaction waits no longer.
    Over(u32),
    /// What transaction 3, which is ready to wait or not, is told of another one in this state.
    Asks(bool, u32, TxState, Option<Verdict>),
}

fn note(waits: &mut Waits, t: u32, on: u32) -> bool {
    waits.note(TxNo(t), TxNo(on)).is_ok()
}

fn verdict(waits: &Waits, wait: bool, by: u32, state: TxState) -> Option<Verdict> {
    waits.verdict(TxNo(3), wait, TxNo(by), state)
}

impl Bench for Waits {
    type Call = Call;

    ghost ready = { λ waits. Unit {0} };

    fn does(&mut self, _alloc: Global, call: &Call) -> bool {
        match *call {
            Call::Note(t, on) => note(self, t, on),
            Call::Over(t) => {
                self.over(TxNo(t));
                true
            }
            Call::Asks(wait, by, state, wanted) => verdict(self, wait, by, state) == wanted,
        }
    }
}

impl Begins for Waits {
    type From = ();

    /// Nobody waits at first.
    fn begin(alloc: Global, _from: ()) -> Result<Waits, Memory> {
        Ok(Waits::new(alloc))
    }
}

const STATES: &[Call] = &[
    Call::Asks(true, 4, TxState::Committed, Some(Verdict::Update)),
    Call::Asks(true, 5, TxState::Active, Some(Verdict::Wait)),
    Call::Asks(false, 5, TxState::Active, Some(Verdict::Lock)),
    Call::Asks(true, 6, TxState::Limbo, Some(Verdict::Limbo)),
    Call::Asks(true, 7, TxState::Dead, None),
];

const EACH_OTHER: &[Call] = &[
    Call::Note(5, 3),
    Call::Asks(true, 5, TxState::Active, Some(Verdict::Deadlock)),
    Call::Over(5),
    Call::Asks(true, 5, TxState::Active, Some(Verdict::Wait)),
];

const OVER_OTHERS: &[Call] = &[
    Call::Note(5, 8),
    Call::Note(9, 3),
    Call::Note(8, 9),
    Call::Asks(true, 5, TxState::Active, Some(Verdict::Deadlock)),
    Call::Note(8, 5),
    Call::Asks(true, 5, TxState::Active, Some(Verdict::Wait)),
];

const RUNS: &[(&str, (), &[Call])] = &[
    ("the verdict goes by the state of the other one", (), STATES),
    (
        "to wait for one that waits for this one is a deadlock",
        (),
        EACH_OTHER,
    ),
    ("a deadlock is found over several others", (), OVER_OTHERS),
];

#[test]
fn what_one_that_is_ready_to_wait_is_told(rt: HostRuntime) -> Result<(), Fail> {
    run_each::<Waits>(&rt, rt.alloc(), RUNS)
}
