//! Single steps of a seat, of which `serve` is made.

ghost use Rattle.std.specs.Prelude.{◌≡◌, ◌<◌, ◌+◌, ◌≤◌, ◌^◌, [], ◌∷◌, Some, IsTrue, IsFalse, MatchOption, MatchBool};
ghost use Rattle.mg_turn.specs.Tells.{Taken, Made, MayPass};
ghost use Rattle.mg_turn.specs.Views.{named, waiting, served_one};
ghost use Rattle.mg_turn.specs.declared.rule.Deed.{Deed};

use crate::lock::{Lock, Turn, TurnSeat};
use crate::rule::{Deed, Draw, Look, Name, Pass, Slot};
use crate::served::Served;
use std::snapshot::Snapshot;
use std::sync::Wait;
use std::thread;

/// How often a thread looks before it sleeps (chosen).
const LOOKS: u32 = 100;

/// Gives a seat its name. A step of its own, since only a step is told the number of its seat.
pub(crate) fn give_name<V: Served>(turn: &Turn<V>, seat: &mut TurnSeat<V>)
    requires table { seat.old.table_id ≡ turn.now.table.shared.table_id }
    requires nameless { (0 < seat.old.me.0.live) × (seat.old.me.0.name ≡ 0)
        × (seat.old.me.0.phase ≡ 0) }
    ensures same { (seat.new.table_id ≡ seat.old.table_id) × (seat.new.id ≡ seat.old.id) }
    ensures named { (name : _) × (0 < name)
        × (seat.new.me ≡ (named name seat.old.me.0, seat.old.me.1)) }
{
    turn.table.shared.load::<Name>(seat, 0);
}

/// Draws a ticket. None where another seat came between, or there is no ticket any more.
fn try_draw<V: Served>(turn: &Turn<V>, seat: &mut TurnSeat<V>) -> Option<u64>
    requires table { seat.old.table_id ≡ turn.now.table.shared.table_id }
    requires idle { (0 < seat.old.me.0.live) × (seat.old.me.0.phase ≡ 0) }
    ensures same { (seat.new.table_id ≡ seat.old.table_id) × (seat.new.id ≡ seat.old.id) }
    ensures drawn { MatchOption result (seat.new.me ≡ seat.old.me)
        (λ n. (n + 1 < 2 ^ 64) × (seat.new.me ≡ (waiting n seat.old.me.0, seat.old.me.1))) }
{
    let next = turn.table.shared.peek(0);
    if next == u64::MAX {
        return None;
    }
    let found = turn
        .table
        .shared
        .compare_exchange::<Draw>(seat, 0, next, next + 1);
    if found == next { Some(next) } else { None }
}

/// Draws a ticket.
pub(crate) fn draw<V: Served, R: Wait>(rt: &R, turn: &Turn<V>, seat: &mut TurnSeat<V>) -> u64
    requires table { seat.old.table_id ≡ turn.now.table.shared.table_id }
    requires idle { (0 < seat.old.me.0.live) × (seat.old.me.0.phase ≡ 0) }
    ensures same { (seat.new.table_id ≡ seat.old.table_id) × (seat.new.id ≡ seat.old.id) }
    ensures drawn { (result + 1 < 2 ^ 64)
        × (seat.new.me ≡ (waiting result seat.old.me.0, seat.old.me.1)) }
{
    for _ in rt.forever() {
        if let Some(number) = try_draw(turn, seat) {
            return number;
        }
        thread::yield_now();
    }
    unreachable!()
}

/// Looks whether the ticket is served, and takes the value then.
fn look<V: Served>(turn: &Turn<V>, seat: &mut TurnSeat<V>, number: u64) -> bool
    requires table { seat.old.table_id ≡ turn.now.table.shared.table_id }
    requires waits { (0 < seat.old.me.0.live) × (seat.old.me.0.phase ≡ 1)
        × (seat.old.me.0.number ≡ number) }
    ensures same { (seat.new.table_id ≡ seat.old.table_id) × (seat.new.id ≡ seat.old.id) }
    ensures looked { MatchBool result (Taken V.answers V.ends seat.old.me seat.new.me)
        (seat.new.me ≡ seat.old.me) }
{
    turn.table.shared.load::<Look<V>>(seat, 1) == number
}

/// Waits until the ticket is served, and takes the value.
pub(crate) fn await_turn<V: Served, R: Wait>(
    rt: &R,
    turn: &Turn<V>,
    seat: &mut TurnSeat<V>,
    number: u64,
)
    requires table { seat.old.table_id ≡ turn.now.table.shared.table_id }
    requires waits { (0 < seat.old.me.0.live) × (seat.old.me.0.phase ≡ 1)
        × (seat.old.me.0.number ≡ number) }
    ensures same { (seat.new.table_id ≡ seat.old.table_id) × (seat.new.id ≡ seat.old.id) }
    ensures taken { Taken V.answers V.ends seat.old.me seat.new.me }
{
    let mut looks = 0u32;
    for _ in rt.forever() {
        // Read before the look: where the turn is passed between the two, the word has changed
        // since, and `park` returns at once. So no wake-up is missed.
        let served = turn.table.shared.peek(1);
        if look(turn, seat, number) {
            return;
        }
        if looks < LOOKS {
            looks += 1;
            thread::yield_now();
        } else {
            turn.table
                .shared
                .park(rt, 1, (served % 0x1_0000_0000) as u32);
        }
    }
    unreachable!()
}

/// The value answers a call, which is noted beside it.
pub(crate) fn make<V: Served>(turn: &Turn<V>, seat: &mut TurnSeat<V>, call: V::Call) -> V::Reply
    requires table { seat.old.table_id ≡ turn.now.table.shared.table_id }
    requires held { (x : _) × (seat.old.me.1 ≡ (0, x) ∷ []) }
    ensures same { (seat.new.table_id ≡ seat.old.table_id) × (seat.new.id ≡ seat.old.id) }
    ensures made { Made V.answers seat.old.me call result seat.new.me }
{
    let held = seat.slot_mut(&turn.table.shared, 0);
    let about = Snapshot::of(&call);
    let reply = held.value.serve(call);
    held.last = Some(Deed {
        call: about,
        reply: Snapshot::of(&reply),
    });
    reply
}

/// Puts the value back, and passes the turn.
pub(crate) fn pass<V: Served>(turn: &Turn<V>, seat: &mut TurnSeat<V>, number: u64)
    requires table { seat.old.table_id ≡ turn.now.table.shared.table_id }
    requires holds { (0 < seat.old.me.0.live) × (seat.old.me.0.phase ≡ 2)
        × (0 < seat.old.me.0.name) × (seat.old.me.0.number ≡ number) × (number + 1 < 2 ^ 64) }
    requires made { MayPass V.answers seat.old.me }
    ensures same { (seat.new.table_id ≡ seat.old.table_id) × (seat.new.id ≡ seat.old.id) }
    ensures passed { (x : _) (d : _) → seat.old.me.1 ≡ (0, x) ∷ [] → x.last ≡ Some d
        → seat.new.me ≡ (served_one d.call.value d.reply.value seat.old.me.0, []) }
{
    turn.table.shared.store::<Pass>(seat, 1, number + 1);
    // Where nobody has drawn a later ticket, nobody sleeps. Who draws one later finds it served.
    if turn.table.shared.peek(0) != number + 1 {
        turn.table.shared.wake_all(1);
    }
}
