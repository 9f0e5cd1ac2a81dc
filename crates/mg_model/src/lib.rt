//! The history machine: what a database of many transactions answers, said by its history alone.
//! A history is an opening and the events since then with their answers. The machine says what an
//! event is answered after a history, and what the database is then.
//!
//! Owns: the events, their answers and refusals, the opening of a history, tables as the catalog
//! says them.
//!
//! The definitions stand in `specs/`, in this order: `Changes` (a database as a list of changes, the
//! newest first), `Catalog` and `CatalogRules` (which tables there are), `History` (entries and what
//! they do), `Machine` (states, steps, the database, bases and views), `Answers` (obstacles, waits,
//! answers), `Legal` (legal histories, and what outlasts a crash), `Openings` (the openings that a
//! database gives). No page, version chain, state bit, index or order of page writes occurs in them.
//! `Promises` says what follows for a user: what a transaction sees, and when it may write; `Laws` and
//! the files `..Laws` say the rest.
//!
//! Invariant: a history has its newest entry first, so that what it was before is the rest.
//! Below: `mg_value`, `mg_expr`. Above: `mg_plain`, a slow program whose answers are the machine's;
//! the plain reading of images; and every promise of an answer.
//! Not here: pages, what a crash leaves of them, and statements, which give several events each.
#![tactic(auto)]

mod answer;
mod change;
mod event;
mod laws;
mod opening;
mod refusal;
mod scenarios;
mod table;

pub use answer::{Answer, Rows};
pub use change::{Change, Deed, Point, Step, copy_row};
pub use event::{Event, Mode};
pub use laws::{
    changes_are_fine, commits_count, constants_are_those, durables_outlast, histories_go_on,
    obstacles_are_there, points_restore, rollbacks_are_unseen, rows_are_those, snapshots_see,
    views_stand, waits_end, writers_take_turns, writes_are_read,
};
pub use opening::{Changes, LimboChange, MOST_TRANSACTIONS, Opening, Placed, PlacedRow, States};
pub use refusal::Refusal;
pub use scenarios::{commits_are_seen, points_take_back, states_allow, writers_conflict};
pub use table::{CATALOG, Index, Indexes, Table};
