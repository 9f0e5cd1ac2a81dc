//! The ends of transactions, told without a wait.

ghost use Rattle.std.specs.Prelude.{◌≡◌, ◌<◌, ◌≤◌, ◌+◌, ℕ, IfSome, IfNone};
ghost use Rattle.mg_turn.specs.Histories.{Has, EndIn};
ghost use Rattle.mg_turn.specs.Promises.{view, IsReady};
ghost use Rattle.mg_turn.specs.Tells.{IsOpen, known_after};
ghost use Rattle.mg_turn.specs.Views.{knowing};

use crate::lock::{Lock, Turn, TurnSeat};
use crate::rule::{Post, Read};
use crate::served::{End, Served};
use crate::turn::ENDS;

// The bit that an end sets in its transaction's word.
fn mask(end: End) -> u64
    ensures { result ≡ Rattle.mg_turn.specs.Tells.mask_of end }
{
    match end {
        End::Committed => 1,
        End::Dead => 2,
        End::Limbo => 4,
    }
}

// The end that a word shows. A transaction that came into limbo and was decided later shows the
// decision, since its bit is asked for first.
fn told(word: u64) -> Option<End>
    ensures { result ≡ Rattle.mg_turn.specs.Tells.end_in word }
{
    if word % 2 == 1 {
        Some(End::Committed)
    } else if word / 2 % 2 == 1 {
        Some(End::Dead)
    } else if word / 4 % 2 == 1 {
        Some(End::Limbo)
    } else {
        None
    }
}

/// Tells all seats how the transaction `t` ended. This seat has seen its end: it stands in the
/// history that the seat saw when it was served last. From now on each `end_of` of this transaction
/// by this seat gives an end.
///
/// `t` is one of the 65,536 numbers from the turn's first on. Waits for nobody.
pub fn post_end<V: Served>(turn: &Turn<V>, seat: &mut TurnSeat<V>, t: u32, end: End)
    requires ready { IsReady turn.now seat.old }
    requires range { (turn.now.first ≤ t) × (t < turn.now.first + 65536) }
    requires ended { EndIn V.ends (view seat.old).seen t end }
    ensures ready { IsReady turn.now seat.new × (seat.new.id ≡ seat.old.id) }
    ensures known { view seat.new ≡ knowing t end (view seat.old) }
{
    let place = (t - turn.first) as usize;
    turn.table
        .shared
        .fetch_or::<Post>(seat, 2 + place, mask(end));
}

/// How the transaction `t` ended, if its word shows an end. The seat knows this end from now on: it
/// stands in every history that the seat sees by a later `serve`. None comes only where the seat
/// knows no end of `t`, so never after one was posted or read by it.
///
/// `t` is one of the 65,536 numbers from the turn's first on. Waits for nobody.
pub fn end_of<V: Served>(turn: &Turn<V>, seat: &mut TurnSeat<V>, t: u32) -> Option<End>
    requires ready { IsReady turn.now seat.old }
    requires range { (turn.now.first ≤ t) × (t < turn.now.first + 65536) }
    ensures ready { IsReady turn.now seat.new × (seat.new.id ≡ seat.old.id) }
    ensures known { view seat.new ≡ known_after t result (view seat.old) }
    ensures none { IfNone result (IsOpen t (view seat.old)) }
{
    let place = (t - turn.first) as usize;
    told(turn.table.shared.load::<Read>(seat, 2 + place))
}
