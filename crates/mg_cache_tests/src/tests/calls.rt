//! The one loop over the calls of a test.
//!
//! What a loop costs to prove, with its assertion and its message, is paid once here and not in each
//! test: a test is a table of runs, each of calls on one thing, one after another. Each `#[test]`
//! costs too, so runs on one kind of thing are one test, and each says what it shows.

ghost use Rattle.std.specs.Bool.{OnTrue};
ghost use Rattle.std.specs.Prelude.{IfOk};

use mg_base::Memory;
use std::alloc::Global;
use std::process::Abort;
use std::test::Fail;

/// What calls are made on.
pub trait Bench {
    /// A call, and what it answers.
    type Call;

    /// What each call needs, and keeps for the next one.
    ghost ready: { Self → Type 0 };

    /// Makes a call, and tells whether it answers so.
    fn does(&mut self, alloc: Global, call: &Self::Call) -> bool
        requires { ready self.old }
        ensures { OnTrue result (ready self.new) };
}

/// What is made for the first call.
pub trait Begins: Bench {
    /// What it is made from.
    type From: Copy;

    fn begin(alloc: Global, from: Self::From) -> Result<Self, Memory>
        ensures { IfOk result (λ bench. Self.ready bench) };
}

/// Wants each call to answer as it says. What the calls show is told where one does not.
pub fn go_on<B: Bench>(
    rt: &impl Abort,
    alloc: Global,
    bench: &mut B,
    shows: &str,
    calls: &[B::Call],
) -> Result<(), Fail>
    requires { B.ready bench.old }
{
    for place in 0..calls.len() {
        assert!(rt; bench.does(alloc, &calls[place]), "{shows}: call {place}");
    }
    Ok(())
}

/// Wants each call to answer as it says, from the beginning on.
fn run<B: Begins + Drop>(
    rt: &impl Abort,
    alloc: Global,
    shows: &str,
    from: B::From,
    calls: &[B::Call],
) -> Result<(), Fail> {
    let mut bench = B::begin(alloc, from)?;
    go_on(rt, alloc, &mut bench, shows, calls)
}

/// Wants this of several runs of calls, each by itself: what a run shows, what it begins from, and
/// its calls.
pub fn run_each<B: Begins + Drop>(
    rt: &impl Abort,
    alloc: Global,
    runs: &[(&str, B::From, &[B::Call])],
) -> Result<(), Fail> {
    for (shows, from, calls) in runs {
        run::<B>(rt, alloc, shows, *from, calls)?;
    }
    Ok(())
}
