//! What the table holds, what a seat knows, the rule of both, and the steps that seats make under it.

use crate::served::{End, Served};
use atomic_table::{Join, Play, Split, TableRule};
use std::collections::LinkedList;
use std::snapshot::Snapshot;

/// A call of a seat with its reply, as it stands in the history. No value of it is made.
pub struct Entry<C, R> {
    /// The name of the seat that called.
    pub by: u64,
    pub call: C,
    pub reply: R,
}

/// All calls of a seat that was joined to another. No value of it is made.
pub struct Gathered<C, R> {
    /// The name of that seat.
    pub name: u64,
    pub entries: LinkedList<Entry<C, R>>,
}

/// The call that was served last, with its reply: the step that passes the turn reads here which
/// entry the history gains. It takes no bytes.
#[derive(Drop)]
pub struct Deed<C, R> {
    pub call: Snapshot<C>,
    pub reply: Snapshot<R>,
}

/// The value, with the call that it served last, if it has served one.
#[derive(Drop)]
pub struct Slot<V, C, R> {
    pub value: V,
    pub last: Option<Deed<C, R>>,
}

/// What a seat knows. No value of it is made. Histories stand newest first.
pub struct View<V, C, R> {
    /// The opening value; none once the seat was joined to another.
    pub from: Option<V>,
    /// The transaction whose end word 2 tells.
    pub start: u64,
    /// The number of the seat in the table and one; 0 before it has its name.
    pub name: u64,
    /// The history so far as the seat has seen it.
    pub seen: LinkedList<Entry<C, R>>,
    /// The seat's own calls.
    pub mine: LinkedList<Entry<C, R>>,
    /// The seats that were joined to it, with all their calls.
    pub gathered: LinkedList<Gathered<C, R>>,
    /// The ends that it posted or read, and those that it knew when it was split.
    pub known: LinkedList<(u64, End)>,
    /// 0 at rest, 1 with a ticket, 2 with the value.
    pub phase: u64,
    /// The ticket, where it has one.
    pub number: u64,
    /// 1 until it is joined to another, and then 0.
    pub live: u64,
    /// The name of the seat that it was split from; 0 for the first.
    pub parent: u64,
    /// How many seats were split from it and not joined back.
    pub children: u64,
}

/// What the rule of a table is told when the table is made.
#[derive(Drop)]
pub struct About<V> {
    /// The opening value.
    pub value: Snapshot<V>,
    /// The transaction whose end word 2 tells.
    pub first: u64,
}

/// The rule: there is one legal history, which leaves the value.
pub struct OneHistory;

impl<V: Served> TableRule<Slot<V, V::Call, V::Reply>, View<V, V::Call, V::Reply>, About<V>>
    for OneHistory {
    ghost use Rattle.mg_turn.specs.Keeping.{Kept};
    ghost use Rattle.mg_turn.specs.Views.{newcomer};

    ghost holds = { λ about. Kept V.answers V.ends about.value.value about.first };

    ghost first = { λ about. newcomer about.value.value about.first };
}

/// A seat gets its name.
pub(crate) struct Name;

impl<V, C, R> Play<Slot<V, C, R>, View<V, C, R>> for Name {
    ghost use Rattle.mg_turn.specs.Tells.{Names};

    ghost then = { Names };
}

/// A seat draws a ticket.
pub(crate) struct Draw;

impl<V, C, R> Play<Slot<V, C, R>, View<V, C, R>> for Draw {
    ghost use Rattle.mg_turn.specs.Tells.{Draws};

    ghost then = { Draws };
}

/// A seat looks whether its ticket is served, and takes the value then.
pub(crate) struct Look<V> {
    of: std::marker::PhantomData<V>,
}

impl<V: Served> Play<Slot<V, V::Call, V::Reply>, View<V, V::Call, V::Reply>> for Look<V> {
    ghost use Rattle.mg_turn.specs.Tells.{Looks};

    ghost then = { Looks V.answers V.ends };
}

/// A seat puts the value back, and passes the turn.
pub(crate) struct Pass;

impl<V, C, R> Play<Slot<V, C, R>, View<V, C, R>> for Pass {
    ghost use Rattle.mg_turn.specs.Tells.{Passes};

    ghost then = { Passes };
}

/// A seat posts an end.
pub(crate) struct Post;

impl<V, C, R> Play<Slot<V, C, R>, View<V, C, R>> for Post {
    ghost use Rattle.mg_turn.specs.Tells.{Posts};

    ghost then = { Posts };
}

/// A seat reads whether a transaction has ended.
pub(crate) struct Read;

impl<V, C, R> Play<Slot<V, C, R>, View<V, C, R>> for Read {
    ghost use Rattle.mg_turn.specs.Tells.{Finds};

    ghost then = { Finds };
}

/// A seat is split from another.
pub(crate) struct Cut;

impl<V, C, R> Split<View<V, C, R>> for Cut {
    ghost use Rattle.mg_turn.specs.Views.{with_child, child_of};

    ghost left = { with_child };

    ghost right = { child_of };
}

/// A seat is joined to another.
pub(crate) struct Glue;

impl<V, C, R> Join<View<V, C, R>> for Glue {
    ghost use Rattle.mg_turn.specs.Views.{joined_with, gone};

    ghost both = { joined_with };

    ghost spent = { gone };
}
