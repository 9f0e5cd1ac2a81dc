//! The turn: made, served, its seats split and joined, and closed.

ghost use Rattle.std.specs.Prelude.{◌≡◌, ◌<◌, ◌≤◌, ℕ, [], ◌∷◌, IfOk, IfErr};
ghost use Rattle.mg_turn.specs.Promises.{view, IsReady, IsAtRest, IsWhole, Stands, Extends};
ghost use Rattle.mg_turn.specs.Views.{newcomer, named, with_child, child_of, joined_with};

use crate::lock::{Lock, Turn, TurnSeat};
use crate::rule::{About, Cut, Glue, Slot};
use crate::served::Served;
use crate::steps::{await_turn, draw, give_name, make, pass};
use atomic_table::{Refused, Table};
use mg_base::Memory;
use std::alloc::{AllocFailed, Global};
use std::snapshot::Snapshot;
use std::sync::Wait;

/// How many transactions' ends a turn has words for (chosen).
pub const ENDS: usize = 65536;

// The limit, written once more: the clauses say it in digits.
const _: () = prove!(ENDS == 65536);

// One slot with the value, or the value again where memory is short.
fn laid<V: Served>(alloc: Global, value: V) -> Result<Vec<Slot<V, V::Call, V::Reply>>, V>
    ensures ok { IfOk result (λ slots. (x : _) × (slots.items ≡ x ∷ []) × (x.value ≡ value)) }
    ensures err { IfErr result (λ back. back ≡ value) }
{
    let Ok(mut slots) = Vec::with_capacity(alloc, 1) else {
        return Err(value);
    };
    if let Err(failed) = slots.push(Slot { value, last: None }) {
        slots.destroy_empty();
        let AllocFailed { value } = failed;
        let Slot { value, last: _ } = value;
        return Err(value);
    }
    Ok(slots)
}

/// A turn for a value, with the words of the ends of 65,536 transactions from `first` on, and its
/// first seat, which has seen nothing yet.
///
/// # Errors
///
/// `Memory` only, with the value as it was given.
pub fn new<V: Served>(
    alloc: Global,
    value: V,
    first: u32,
) -> Result<(Turn<V>, TurnSeat<V>), (V, Memory)>
    ensures ok { IfOk result (λ t. IsReady t.0 t.1 × (t.0.first ≡ first)
        × ((name : ℕ) × (view t.1 ≡ named name (newcomer value first)))) }
    ensures err { IfErr result (λ e. e.0 ≡ value) }
{
    let Ok(words) = Vec::from_elem(alloc, 0u64, ENDS + 2) else {
        return Err((value, Memory));
    };
    let about = About {
        value: Snapshot::of(&value),
        first: u64::from(first),
    };
    let slots = match laid(alloc, value) {
        Ok(slots) => slots,
        Err(value) => return Err((value, Memory)),
    };
    match Table::new(alloc, words.as_slice(), slots, &about) {
        Ok((table, mut seat)) => {
            let turn = Lock { table, first };
            give_name(&turn, &mut seat);
            Ok((turn, seat))
        }
        Err(Refused { mut slots }) => {
            let Some(slot) = slots.pop() else {
                unreachable!()
            };
            slots.destroy_empty();
            let Slot { value, last: _ } = slot;
            Err((value, Memory))
        }
    }
}

/// The value answers the call, once it is this seat's turn. What the seat has then seen begins with
/// all that it had seen and ends with this call and its reply. It is legal, and each end that the
/// seat knew stands in it. Of the seat's name it has the seat's own calls, each once, in order.
///
/// May wait for the calls of other seats. A thread that waits long sleeps until the turn is passed.
pub fn serve<V: Served, R: Wait>(
    rt: &R,
    turn: &Turn<V>,
    seat: &mut TurnSeat<V>,
    call: V::Call,
) -> V::Reply
    requires { IsReady turn.now seat.old }
    ensures ready { IsReady turn.now seat.new × (seat.new.id ≡ seat.old.id) }
    ensures extends { Extends V.answers V.ends (view seat.old) call result (view seat.new) }
{
    let number = draw(rt, turn, seat);
    await_turn(rt, turn, seat, number);
    let reply = make(turn, seat, call);
    pass(turn, seat, number);
    reply
}

/// A seat for another thread. It has seen as much as this one and knows the same ends, and has made
/// no calls. It has to be joined to this one again before the turn can be closed.
pub fn split<V: Served>(turn: &Turn<V>, seat: &mut TurnSeat<V>) -> TurnSeat<V>
    requires { IsReady turn.now seat.old }
    ensures ready { IsReady turn.now seat.new × IsReady turn.now result }
    ensures left { view seat.new ≡ with_child (view seat.old) }
    ensures right { (name : ℕ) × (view result ≡ named name (child_of (view seat.old))) }
{
    let mut other = turn.table.shared.split_seat::<Cut>(seat);
    give_name(turn, &mut other);
    other
}

/// Takes a seat back that was split from this one, and to which all that were split from it were
/// joined. This seat then has all calls of the other, and knows the ends of both.
pub fn join<V: Served>(turn: &Turn<V>, seat: &mut TurnSeat<V>, other: TurnSeat<V>)
    requires ready { IsReady turn.now seat.old × IsReady turn.now other }
    requires split { ((view other).parent ≡ (view seat.old).name) × ((view other).children ≡ 0) }
    ensures ready { IsReady turn.now seat.new }
    ensures joined { view seat.new ≡ joined_with (view seat.old) (view other) }
{
    turn.table.shared.join_seat::<Glue>(seat, other);
}

/// Gives the value back, as the whole history leaves it. The seat is the first one, to which all
/// that were split from it were joined: so each call of the history is its own or a joined seat's.
pub fn close<V: Served>(turn: Turn<V>, seat: TurnSeat<V>) -> V
    requires ready { IsReady turn seat }
    requires all_joined { ((view seat).parent ≡ 0) × ((view seat).children ≡ 0) }
    ensures stands { Stands V.answers (view seat) result }
    ensures whole { IsWhole (view seat) }
{
    let Lock { table, first: _ } = turn;
    let mut closed = table.close_with(seat);
    let slot = closed.take(0);
    closed.free();
    let Slot { value, last: _ } = slot;
    value
}
