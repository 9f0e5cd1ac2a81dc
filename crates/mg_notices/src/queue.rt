//! The queue: opened, offered to and taken from, and settled.

ghost use Rattle.std.specs.Prelude.{◌≡◌, ◌<◌, List, IfOk, MatchResult, MatchOption};
ghost use Rattle.crossbeam_queue.specs.Passes.{view, IsPassOf, ruled_capacity};
ghost use Rattle.crossbeam_queue.specs.Fifo.{Held};
ghost use Rattle.mg_notices.specs.Offers.{taker as fresh_taker, offerer, offered, taken, with_gathered, Tells};

use crate::rule::{Add, Gather, Notices, Offer, Offerer, Settle, Take, Taker};
use mg_base::Memory;
use std::alloc::Global;
use std::sync::Wait;

/// How many notices the queue holds at most (chosen).
pub const MOST_NOTICES: usize = 256;

/// An empty queue, and its taker.
///
/// # Errors
///
/// `Memory` only.
pub fn open<T>(alloc: Global) -> Result<(Notices<T>, Taker<T>), Memory>
    ensures { IfOk result (λ q. (ruled_capacity q.0 ≡ 256) × IsPassOf q.0 q.1
        × (view q.1 ≡ fresh_taker)) }
{
    Ok(Notices::ruled(alloc, MOST_NOTICES)?)
}

/// An offerer more, which has offered nothing yet.
pub fn new_offerer<T>(queue: &Notices<T>, taker: &mut Taker<T>) -> Offerer<T>
    requires { IsPassOf queue.now taker.old × (0 < (view taker.old).takes) }
    ensures taker { IsPassOf queue.now taker.new × (view taker.new ≡ view taker.old) }
    ensures offerer { IsPassOf queue.now result × (view result ≡ offerer) }
{
    queue.another::<Add>(taker)
}

/// Offers a notice. It comes back only where the queue was full at a step of this call, and then
/// nothing was offered.
///
/// May wait for a call of another thread that puts a notice in or takes one out.
pub fn offer<T, R: Wait>(
    rt: &R,
    queue: &Notices<T>,
    who: &mut Offerer<T>,
    notice: T,
) -> Result<(), T>
    requires { IsPassOf queue.now who.old × (0 < (view who.old).offers) }
    ensures pass { IsPassOf queue.now who.new }
    ensures offered { MatchResult result (λ _. view who.new ≡ offered (view who.old) notice)
        (λ back. (back ≡ notice) × (view who.new ≡ view who.old)
        × Held (ruled_capacity queue.now) (λ (items : List T). Unit {0})) }
{
    queue.push_as::<Offer, R>(rt, who, notice)
}

/// Takes the oldest notice. None only where the queue was empty at a step of this call.
///
/// May wait for a call of another thread that puts a notice in.
pub fn take<T, R: Wait>(rt: &R, queue: &Notices<T>, who: &mut Taker<T>) -> Option<T>
    requires { IsPassOf queue.now who.old × (0 < (view who.old).takes) }
    ensures pass { IsPassOf queue.now who.new }
    ensures taken { MatchOption result
        ((view who.new ≡ view who.old) × Held 0 (λ (items : List T). Unit {0}))
        (λ notice. view who.new ≡ taken (view who.old) notice) }
{
    queue.pop_as::<Take, R>(rt, who)
}

/// Takes an offerer in: from now on the taker knows all that this one had offered.
pub fn gather<T>(queue: &Notices<T>, who: &mut Taker<T>, other: Offerer<T>)
    requires taker { IsPassOf queue.now who.old × (0 < (view who.old).takes) }
    requires offerer { IsPassOf queue.now other × (0 < (view other).offers) }
    ensures pass { IsPassOf queue.now who.new }
    ensures gathered { view who.new ≡ with_gathered (view who.old) (view other) }
{
    queue.absorb::<Gather>(who, other)
}

/// Tells of the one list of what was offered: what was taken begins it, and of each offerer that was
/// gathered all that it offered stands in it, in its order and apart from all others'. It does
/// nothing to the queue.
pub fn settle<T>(queue: &Notices<T>, who: &mut Taker<T>)
    requires { IsPassOf queue.now who.old × (0 < (view who.old).takes) }
    ensures pass { IsPassOf queue.now who.new × (view who.new ≡ view who.old) }
    ensures one { (rest : _) × Tells (view who.old) rest }
{
    queue.learn_as::<Settle>(who)
}
