//! Tests of the graph: orders, cycles, and the page that is written first.

use crate::tests::calls::{Begins, Bench, run_each};
use mg_base::Memory;
use mg_careful::Graph;
use std::alloc::Global;
use std::test::Fail;

/// A call of a graph, and what it answers.
#[derive(Clone, Copy)]
pub enum Call {
    /// A page is entered, for which there is room.
    Enter(u32),
    /// A page is ordered before another one, which closes no cycle.
    Add(u32, u32),
    Clear(u32),
    /// Whether the order of a page before another one would close a cycle.
    Cycle(u32, u32, bool),
    /// The page that is written first towards this one.
    Ready(u32, Option<u32>),
    Entered(u32, bool),
    /// Whether there is room for one more page.
    Room(bool),
    /// There are so many pages.
    Len(usize),
    Empty(bool),
}

/// Enters a page, and tells whether there was room.
fn enter(graph: &mut Graph, page: u32) -> bool {
    if !graph.has_room() {
        return false;
    }
    graph.enter(page);
    true
}

/// Adds an order between entered pages, and tells whether it closed no cycle.
fn add(graph: &mut Graph, first: u32, later: u32) -> bool {
    if !graph.is_entered(first) {
        return false;
    }
    if !graph.is_entered(later) {
        return false;
    }
    if graph.would_cycle(first, later) {
        return false;
    }
    graph.add(first, later);
    true
}

fn clear(graph: &mut Graph, page: u32) -> bool {
    graph.clear(page);
    true
}

impl Bench for Graph {
    type Call = Call;

    ghost ready = { λ graph. Unit {0} };

    fn does(&mut self, _alloc: Global, call: &Call) -> bool {
        match *call {
            Call::Enter(page) => enter(self, page),
            Call::Add(first, later) => add(self, first, later),
            Call::Clear(page) => clear(self, page),
            Call::Cycle(first, later, would) => self.would_cycle(first, later) == would,
            Call::Ready(goal, page) => self.first_ready(goal) == page,
            Call::Entered(page, is) => self.is_entered(page) == is,
            Call::Room(has) => self.has_room() == has,
            Call::Len(count) => self.len() == count,
            Call::Empty(is) => self.is_empty() == is,
        }
    }
}

impl Begins for Graph {
    /// For how many pages there is room.
    type From = u32;

    fn begin(alloc: Global, room: u32) -> Result<Graph, Memory> {
        Graph::new(alloc, room)
    }
}

const CHAIN: &[Call] = &[
    Call::Enter(1),
    Call::Enter(2),
    Call::Enter(3),
    Call::Add(1, 2),
    Call::Add(2, 3),
    Call::Cycle(3, 1, true),
    Call::Cycle(2, 2, true),
    Call::Cycle(3, 2, true),
    Call::Cycle(1, 3, false),
    Call::Cycle(1, 4, false),
    Call::Cycle(4, 4, true),
    Call::Ready(3, Some(1)),
    Call::Clear(1),
    Call::Ready(3, Some(2)),
    Call::Ready(1, None),
];

const LEAST: &[Call] = &[
    Call::Enter(900),
    Call::Enter(70),
    Call::Enter(5),
    Call::Enter(4_294_967_295),
    Call::Enter(6),
    Call::Add(900, 5),
    Call::Add(70, 5),
    Call::Add(5, 4_294_967_295),
    Call::Ready(4_294_967_295, Some(70)),
    Call::Clear(70),
    Call::Ready(4_294_967_295, Some(900)),
    Call::Clear(900),
    Call::Ready(4_294_967_295, Some(5)),
    Call::Clear(5),
    Call::Ready(4_294_967_295, Some(4_294_967_295)),
    Call::Clear(4_294_967_295),
    Call::Ready(6, Some(6)),
    Call::Len(1),
];

/// Page 1 precedes 3 through 2 alone, and 5 through 4 too.
const CLEARED: &[Call] = &[
    Call::Enter(1),
    Call::Enter(2),
    Call::Enter(3),
    Call::Enter(4),
    Call::Enter(5),
    Call::Add(1, 2),
    Call::Add(2, 3),
    Call::Add(1, 4),
    Call::Add(4, 5),
    Call::Add(2, 5),
    Call::Clear(2),
    Call::Cycle(3, 1, false),
    Call::Cycle(5, 1, true),
    Call::Ready(3, Some(3)),
];

/// There is room for two pages.
const ROOM: &[Call] = &[
    Call::Empty(true),
    Call::Room(true),
    Call::Enter(7),
    Call::Len(1),
    Call::Room(true),
    Call::Enter(7),
    Call::Len(1),
    Call::Room(true),
    Call::Enter(9),
    Call::Len(2),
    Call::Room(false),
    Call::Clear(7),
    Call::Room(true),
    Call::Entered(7, false),
    Call::Entered(9, true),
];

const RUNS: &[(&str, u32, &[Call])] = &[
    (
        "a page that precedes through another one is written first",
        10,
        CHAIN,
    ),
    ("the page of least number is ready first", 10, LEAST),
    (
        "what preceded through a cleared page alone precedes no longer",
        10,
        CLEARED,
    ),
    (
        "a page is entered once and room ends at the number that was given",
        2,
        ROOM,
    ),
];

#[test]
fn what_is_ordered_and_what_is_ready_first(rt: HostRuntime) -> Result<(), Fail> {
    run_each::<Graph>(&rt, rt.alloc(), RUNS)
}
