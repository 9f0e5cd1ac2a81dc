//! Where a statement stands.

use mg_calls::{Walk, Writes};
use mg_model::Table;
use mg_plan::Bound;
use mg_rows::{Outcome, StatementFault};
use mg_value::{Key, Name, Row, Shape};

/// What a step of a statement came to.
#[derive(Debug, Drop)]
pub enum Step {
    /// There is more to do.
    More,
    /// The statement is at its end.
    Done(Outcome),
}

/// An INSERT that has not computed its row.
#[derive(Drop)]
pub struct Inserting {
    pub table: Table,
    pub bound: Bound,
}

/// A SELECT, an UPDATE or a DELETE that reads.
#[derive(Drop)]
pub struct Reading<P> {
    pub walk: Walk<P>,
    pub bound: Bound,
    /// The rows that passed the filter so far, with their keys, in the order in which they were
    /// visited.
    pub kept: Vec<(Key, Row)>,
}

/// A statement that has set its mark.
#[derive(Drop)]
pub struct Changing {
    pub writes: Writes,
    /// How many writes it makes in all.
    pub count: u64,
}

/// A table that CREATE TABLE makes.
#[derive(Drop)]
pub struct NewTable {
    pub name: Name,
    pub shape: Shape,
}

/// Where a statement stands.
#[derive(Drop)]
pub enum Phase<P> {
    /// It is to set a savepoint.
    Saving(Name),
    /// It is to go back to a savepoint.
    Returning(Name),
    Inserting(Inserting),
    Reading(Reading<P>),
    Changing(Changing),
    /// It is to set its mark and make a table.
    Creating(NewTable),
    /// It has set its mark, and the making of its table waits.
    Retrying(NewTable),
    /// It is at its end.
    Ended,
    /// It is at its end, and its transaction is rolled back: it could not be undone.
    RolledBack,
}

/// Where a statement stands after a step, and what the step is answered.
#[derive(Drop)]
pub struct Turn<P> {
    pub phase: Phase<P>,
    pub answer: Result<Step, StatementFault>,
}
