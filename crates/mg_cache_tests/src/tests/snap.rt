//! What a base sees.

ghost use Rattle.std.specs.Bool.{OnTrue};
ghost use Rattle.std.specs.Prelude.{◌≡◌, IfOk, IfSome};
ghost use Rattle.mg_snap.specs.Live.{MayEnter};

use super::calls::{Begins, Bench, run_each};
use mg_base::{Memory, TxNo};
use mg_snap::Live;
use std::alloc::Global;
use std::test::Fail;

/// A call, and what it answers.
#[derive(Clone, Copy)]
pub enum Call {
    /// A transaction enters with a base: the next one, or one that was drawn before.
    Enter(u32),
    Leave(u32),
    /// A transaction goes into limbo.
    Limbo(u32),
    /// A transaction takes a new base.
    Rebase(u32),
    /// A transaction has not ended, or it has.
    Unended(u32, bool),
    /// Every base sees a transaction, or one does not.
    AllSee(u32, bool),
    /// A transaction sees exactly those of 1 to 7 that are named.
    Sees(u32, &'static [u32]),
}

/// Tells whether a transaction may enter, where the one of this number is the next.
fn may_enter(live: &Live, next: u32, t: u32) -> bool
    requires next { live.now.next ≡ next }
    ensures { OnTrue result (MayEnter live.now t) }
{
    if t == next {
        return true;
    }
    t < next && !live.is_unended(TxNo(t))
}

/// Enters a transaction, where the one of this number is the next, and answers which one is then:
/// none where it may not enter.
fn enter(live: &mut Live, next: u32, t: u32) -> Option<u32>
    requires next { live.old.next ≡ next }
    ensures next { IfSome result (λ now. live.new.next ≡ now) }
{
    if t >= 1000 || !may_enter(live, next, t) {
        return None;
    }
    match live.enter(TxNo(t)) {
        Ok(()) => Some(next.max(t + 1)),
        Err(_) => None,
    }
}

/// Tells whether t sees exactly those of 1 to 7 that are named.
fn sees_just(live: &Live, t: u32, seen: &[u32]) -> bool {
    for by in 1..8u32 {
        if live.sees(TxNo(t), TxNo(by)) != seen.contains(&by) {
            return false;
        }
    }
    true
}

/// What lives, and which transaction is drawn next.
#[derive(Drop)]
pub struct Drawn {
    live: Live,
    next: u32,
}

/// Enters a transaction, and tells whether it may.
fn draw(drawn: &mut Drawn, t: u32) -> bool
    requires next { drawn.old.live.next ≡ drawn.old.next }
    ensures next { OnTrue result (drawn.new.live.next ≡ drawn.new.next) }
{
    match enter(&mut drawn.live, drawn.next, t) {
        Some(next) => {
            drawn.next = next;
            true
        }
        None => false,
    }
}

impl Bench for Drawn {
    type Call = Call;

    ghost ready = { λ drawn. drawn.live.next ≡ drawn.next };

    fn does(&mut self, _alloc: Global, call: &Call) -> bool {
        match *call {
            Call::Enter(t) => return draw(self, t),
            Call::Leave(t) => self.live.leave(TxNo(t)),
            Call::Limbo(t) => self.live.limbo(TxNo(t)),
            Call::Rebase(t) => self.live.rebase(TxNo(t)),
            Call::Unended(t, is) => return self.live.is_unended(TxNo(t)) == is,
            Call::AllSee(by, all) => return self.live.all_see(TxNo(by)) == all,
            Call::Sees(t, seen) => return sees_just(&self.live, t, seen),
        }
        true
    }
}

impl Begins for Drawn {
    /// Which transaction is drawn first.
    type From = u32;

    fn begin(alloc: Global, first: u32) -> Result<Drawn, Memory> {
        Ok(Drawn {
            live: Live::new(alloc, TxNo(first)),
            next: first,
        })
    }
}

const ENDED: &[Call] = &[
    Call::Enter(2),
    Call::Sees(2, &[1, 3]),
    Call::Enter(4),
    Call::Enter(5),
    Call::Sees(5, &[1, 3]),
    Call::Leave(2),
    Call::Leave(4),
    Call::Sees(5, &[1, 3]),
    Call::Enter(6),
    Call::Sees(6, &[1, 2, 3, 4]),
    Call::Leave(5),
    Call::Sees(6, &[1, 2, 3, 4]),
    Call::Enter(7),
    Call::Sees(7, &[1, 2, 3, 4, 5]),
    Call::Sees(5, &[]),
];

/// Transaction 3 is in limbo, and then it is decided.
const DECIDED: &[Call] = &[
    Call::Enter(3),
    Call::Enter(4),
    Call::Unended(3, true),
    Call::Leave(3),
    Call::Unended(3, false),
    Call::Sees(4, &[1, 2]),
    Call::Enter(5),
    Call::Sees(5, &[1, 2, 3]),
];

/// Transaction 2 does not see 1 at first. Later it does, and 3 has no base.
const REBASED: &[Call] = &[
    Call::Enter(1),
    Call::Enter(2),
    Call::Enter(3),
    Call::Leave(1),
    Call::Limbo(3),
    Call::Sees(2, &[]),
    Call::AllSee(1, false),
    Call::Rebase(2),
    Call::Sees(2, &[1]),
    Call::Sees(3, &[]),
    Call::AllSee(1, true),
    Call::Unended(3, true),
    Call::Rebase(3),
    Call::Sees(3, &[]),
];

const RUNS: &[(&str, u32, &[Call])] = &[
    ("a base sees what had ended when it was taken", 4, ENDED),
    ("one that is decided later is not seen", 4, DECIDED),
    ("a new base sees what has ended since", 1, REBASED),
];

#[test]
fn what_a_base_sees(rt: HostRuntime) -> Result<(), Fail> {
    run_each::<Drawn>(&rt, rt.alloc(), RUNS)
}
