//! Threads that share a sum, each run to its end.

ghost use Rattle.std.specs.Prelude.{◌≡◌, ◌<◌, ◌≤◌, ◌+◌, ℕ};
ghost use denote.Param.Send.{IsSync};
ghost use Rattle.mg_turn.specs.Promises.{IsKin, IsReady, view};
ghost use Rattle.mg_turn.specs.declared.served.End.TheVariants.{Committed};

use crate::{End, Served, Turn, TurnSeat, close, end_of, join, new, post_end, serve, split};
use std::sync::Wait;
use std::thread;
use std::thread::Threads;

/// A sum. A call adds its number, and tells that the transaction of this number was committed.
#[derive(Drop)]
struct Sum {
    total: u64,
}

impl Served for Sum {
    type Call = u64;

    type Reply = u64;

    ghost answers = { λ old call reply new. new.total ≡ reply };

    ghost ends = { λ call reply t end. (t ≡ call) × (end ≡ Committed) };

    fn serve(&mut self, call: u64) -> u64 {
        self.total = self.total.wrapping_add(call);
        self.total
    }
}

/// Adds 1, so many times.
fn add<T: Wait>(rt: &T, turn: &Turn<Sum>, seat: &mut TurnSeat<Sum>, calls: u64)
    requires { IsReady turn.now seat.old }
    ensures ready { IsReady turn.now seat.new }
    ensures kin { IsKin (view seat.old) (view seat.new) }
{
    for _ in 0..calls {
        serve(rt, turn, seat, 1);
    }
}

/// The same in so many threads, each with a seat of its own.
#[cycle(threads)]
fn add_all<T: Threads + Wait + Sync>(
    rt: &T,
    turn: &Turn<Sum>,
    mut seat: TurnSeat<Sum>,
    count: u64,
    calls: u64,
) -> TurnSeat<Sum>
    requires { IsReady turn.now seat }
    ensures ready { IsReady turn.now result }
    ensures kin { IsKin (view seat) (view result) }
{
    if count < 2 {
        add(rt, turn, &mut seat, calls);
        return seat;
    }
    let low = count / 2;
    let high = count - low;
    let other = split(turn, &mut seat);
    let (mut seat, other) = thread::join(
        rt,
        move || -> TurnSeat<Sum>
            requires { IsSync T.row × IsReady turn.now seat }
            ensures { IsReady turn.entry.now result × IsKin (view seat) (view result) }
        { add_all(rt, turn, seat, low, calls) },
        move || -> TurnSeat<Sum>
            requires { IsSync T.row × IsReady turn.now other }
            ensures { IsReady turn.entry.now result × IsKin (view other) (view result) }
        { add_all(rt, turn, other, high, calls) },
    );
    join(turn, &mut seat, other);
    seat
}

/// Adds the number of a transaction, and posts that it was committed.
fn commit<T: Wait>(rt: &T, turn: &Turn<Sum>, seat: &mut TurnSeat<Sum>, t: u32)
    requires ready { IsReady turn.now seat.old }
    requires range { (turn.now.first ≤ t) × (t < turn.now.first + 65536) }
    ensures ready { IsReady turn.now seat.new }
    ensures kin { IsKin (view seat.old) (view seat.new) }
{
    serve(rt, turn, seat, u64::from(t));
    post_end(turn, seat, t, End::Committed);
}

/// Reads the end of a transaction until one is told.
fn await_end<T: Wait>(rt: &T, turn: &Turn<Sum>, seat: &mut TurnSeat<Sum>, t: u32) -> End
    requires ready { IsReady turn.now seat.old }
    requires range { (turn.now.first ≤ t) × (t < turn.now.first + 65536) }
    ensures ready { IsReady turn.now seat.new }
    ensures kin { IsKin (view seat.old) (view seat.new) }
{
    for _ in rt.forever() {
        if let Some(end) = end_of(turn, seat, t) {
            return end;
        }
        thread::yield_now();
    }
    unreachable!()
}

#[test]
fn an_end_that_one_thread_posts_is_read_by_another(rt: HostRuntime) {
    let Ok((turn, mut seat)) = new(rt.alloc(), Sum { total: 0 }, 1) else {
        panic!(rt; "no memory");
    };
    assert!(rt; end_of(&turn, &mut seat, 7).is_none());
    let mut other = split(&turn, &mut seat);
    let host = &rt;
    let shared = &turn;
    let ((other, end), mut seat) = thread::join(
        host,
        move || -> (TurnSeat<Sum>, End)
            requires { IsReady shared.now other × (shared.now.first ≡ 1) }
            ensures { IsReady shared.entry.now result.0 × IsKin (view other) (view result.0) }
        {
            let end = await_end(host, shared, &mut other, 7);
            (other, end)
        },
        move || -> TurnSeat<Sum>
            requires { IsReady shared.now seat × (shared.now.first ≡ 1) }
            ensures { IsReady shared.entry.now result × IsKin (view seat) (view result) }
        {
            commit(host, shared, &mut seat, 7);
            seat
        },
    );
    join(&turn, &mut seat, other);
    assert_eq!(rt; end, End::Committed);
    // The one that waited knows the end, though it was not served since.
    assert_eq!(rt; end_of(&turn, &mut seat, 7), Some(End::Committed));
    assert!(rt; end_of(&turn, &mut seat, 8).is_none());
    assert_eq!(rt; close(turn, seat).total, 7);
}

#[test]
fn sixteen_threads_lose_no_call(rt: HostRuntime) {
    let Ok((turn, seat)) = new(rt.alloc(), Sum { total: 0 }, 1) else {
        panic!(rt; "no memory");
    };
    let seat = add_all(&rt, &turn, seat, 16, 500);
    let sum = close(turn, seat);
    assert_eq!(rt; sum.total, 8000);
}
