//! Two threads that offer, each run to its end, and one that takes.

ghost use Rattle.std.specs.Prelude.{◌≡◌, ◌<◌};
ghost use Rattle.crossbeam_queue.specs.Passes.{view, IsPassOf};

use crate::{
    MOST_NOTICES, Notices, Offerer, Taker, gather, new_offerer, offer, open, settle, take,
};
use std::sync::Wait;
use std::thread;

/// Offers 200 notices, numbered from a number on, and drops those that come back.
fn offer_all<R: Wait>(
    rt: &R,
    queue: &Notices<u64>,
    mut who: Offerer<u64>,
    from: u64,
) -> Offerer<u64>
    requires { IsPassOf queue.now who × (0 < (view who).offers) }
    ensures { IsPassOf queue.now result × (0 < (view result).offers) }
{
    for n in 0..200u64 {
        let _ = offer(rt, queue, &mut who, from.wrapping_add(n));
    }
    who
}

/// Takes all notices, and tells how many there were, and whether those below 1000 and those from
/// there on came each in their order.
fn take_all<R: Wait>(rt: &R, queue: &Notices<u64>, taker: &mut Taker<u64>) -> (usize, bool)
    requires { IsPassOf queue.now taker.old × (0 < (view taker.old).takes) }
    ensures { IsPassOf queue.now taker.new × (0 < (view taker.new).takes) }
{
    let mut low = 0u64;
    let mut high = 1000u64;
    let mut in_order = true;
    for taken in 0..1000usize {
        let Some(notice) = take(rt, queue, taker) else {
            return (taken, in_order);
        };
        let next = if notice < 1000 { &mut low } else { &mut high };
        in_order = in_order && *next <= notice;
        *next = notice;
    }
    (1000, in_order)
}

#[test]
fn two_threads_fill_the_queue_and_the_notices_of_each_come_in_its_order(rt: HostRuntime) {
    let Ok((queue, mut taker)) = open::<u64>(rt.alloc()) else {
        panic!(rt; "no memory");
    };
    let one = new_offerer(&queue, &mut taker);
    let other = new_offerer(&queue, &mut taker);
    let host = &rt;
    let shared = &queue;
    let (one, other) = thread::join(
        host,
        move || -> Offerer<u64>
            requires { IsPassOf shared.now one × (0 < (view one).offers) }
            ensures { IsPassOf shared.entry.now result × (0 < (view result).offers) }
        { offer_all(host, shared, one, 0) },
        move || -> Offerer<u64>
            requires { IsPassOf shared.now other × (0 < (view other).offers) }
            ensures { IsPassOf shared.entry.now result × (0 < (view result).offers) }
        { offer_all(host, shared, other, 1000) },
    );
    gather(&queue, &mut taker, one);
    gather(&queue, &mut taker, other);
    let (taken, in_order) = take_all(&rt, &queue, &mut taker);
    settle(&queue, &mut taker);
    assert_eq!(rt; taken, MOST_NOTICES);
    assert!(rt; in_order);
}
