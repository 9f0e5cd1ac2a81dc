//! Transactions that run.

use super::calls::{Begins, Bench, run_each};
use mg_base::{Memory, TxNo};
use mg_model::Mode;
use mg_works::{Work, Works};
use std::alloc::Global;
use std::test::Fail;

/// A call, and what it answers.
#[derive(Clone, Copy)]
pub enum Call {
    /// A transaction begins in a session, with a snapshot or without.
    Begin(u32, u8, bool),
    /// A transaction asks for its commit.
    Ask(u32),
    Mark(u32),
    End(u32),
    /// A transaction is not active.
    Gone(u32),
    /// A session has an active transaction or none.
    Session(u8, bool),
    /// A transaction is active: its session, whether it has asked, and whether it has a snapshot.
    Is(u32, u8, bool, bool),
}

/// A mode.
fn mode(snapshot: bool) -> Mode {
    Mode {
        read_only: false,
        wait: true,
        snapshot,
    }
}

/// Begins a transaction that is not active, in a session that has none.
fn begin(works: &mut Works, t: u32, session: u8, snapshot: bool) -> bool {
    if session >= 32 || works.has_session(session) {
        return false;
    }
    if works.work(TxNo(t)).is_some() {
        return false;
    }
    works.begin(TxNo(t), session, mode(snapshot)).is_ok()
}

fn set_mark(works: &mut Works, t: u32) -> bool {
    works.set_mark(TxNo(t)).is_ok()
}

/// Tells whether a transaction is as these say.
fn is_so(work: &Work, session: u8, asked: bool, snapshot: bool) -> bool {
    work.session() == session && work.has_asked() == asked && work.mode().snapshot == snapshot
}

/// Tells whether a transaction is active, and as these say.
fn is_active(works: &Works, t: u32, session: u8, asked: bool, snapshot: bool) -> bool {
    match works.work(TxNo(t)) {
        Some(work) => is_so(work, session, asked, snapshot),
        None => false,
    }
}

impl Bench for Works {
    type Call = Call;

    ghost ready = { λ works. Unit {0} };

    fn does(&mut self, _alloc: Global, call: &Call) -> bool {
        match *call {
            Call::Begin(t, session, snapshot) => begin(self, t, session, snapshot),
            Call::Ask(t) => {
                self.ask(TxNo(t));
                true
            }
            Call::Mark(t) => set_mark(self, t),
            Call::End(t) => {
                self.end(TxNo(t));
                true
            }
            Call::Gone(t) => self.work(TxNo(t)).is_none(),
            Call::Session(session, has) => self.has_session(session) == has,
            Call::Is(t, session, asked, snapshot) => is_active(self, t, session, asked, snapshot),
        }
    }
}

impl Begins for Works {
    type From = ();

    fn begin(alloc: Global, _from: ()) -> Result<Works, Memory> {
        Ok(Works::new(alloc))
    }
}

const TWO: &[Call] = &[
    Call::Begin(7, 3, true),
    Call::Begin(8, 4, false),
    Call::Ask(8),
    Call::Mark(7),
    Call::End(7),
    Call::Gone(7),
    Call::Session(3, false),
    Call::Is(8, 4, true, false),
];

const RUNS: &[(&str, (), &[Call])] = &[("two begin and one ends", (), TWO)];

#[test]
fn two_begin_and_one_ends(rt: HostRuntime) -> Result<(), Fail> {
    run_each::<Works>(&rt, rt.alloc(), RUNS)
}
