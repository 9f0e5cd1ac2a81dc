//! The lock, and the seats by which threads step.

ghost use Rattle.std.specs.Prelude.{◌≡◌};

use crate::rule::{About, OneHistory, Slot, View};
use crate::served::Served;
use atomic_table::{Seat, Table, TableRule};
use std::alloc::Global;

/// A table of one slot and the words of 65,536 ends.
#[derive(Drop)]
pub struct Lock<S, D, K, P: TableRule<S, D, K>> {
    pub(crate) table: Table<S, D, K, P, Global>,
    /// The transaction whose end word 2 tells.
    pub(crate) first: u32,
    ghost sized: { (table.shared.table_id.words ≡ 65538) × (table.shared.table_id.slots ≡ 1) },
}

/// A value that threads share.
pub type Turn<V> = Lock<
    Slot<V, <V as Served>::Call, <V as Served>::Reply>,
    View<V, <V as Served>::Call, <V as Served>::Reply>,
    About<V>,
    OneHistory,
>;

/// What a thread steps with: its place in the table, and what it knows of the history.
pub type TurnSeat<V> = Seat<
    Slot<V, <V as Served>::Call, <V as Served>::Reply>,
    View<V, <V as Served>::Call, <V as Served>::Reply>,
>;
