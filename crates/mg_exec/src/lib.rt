//! The steps of statements over any keeper of records.
//!
//! Owns: `Run`, a statement of a transaction that runs in steps (`Run::test`, `Run::step`), `Step`,
//! what a step came to, and the steps of each kind of statement: the tests before a row is read
//! (`test`), the reading (`read`), the writes that are made of the rows found (`make_writes`)
//! and written one a step (`start_to_write`, `change`), what a SELECT answers (`answer`), savepoints
//! (`save`, `go_back`), and CREATE TABLE, which is one step (`test_table`, `create`, `retry`).
//!
//! A statement looks, finds its rows, sets its mark and writes, each an event of the history. What a
//! statement gives of events, and what it comes to, is said in `specs/Statements`: `IsAt` where it
//! stands that has given these entries, `Gives` what a step adds, `ComesTo` its ends. The other
//! definitions say the steps of each kind: `Starting`, `Reading`, `Selecting`, `Making`, `Changing`,
//! `Points`, `NewTables` and `Creating`, and `Running` for a step of any; `Phases` has what the next call
//! asks, and `Progress` how a statement comes nearer to its end. What is computed of rows is said in
//! `mg_rows`.
//!
//! Invariant: a statement that goes on is ready for its next step (`IsReady`), and calls for other
//! transactions between two steps leave it so, and where it stands.
//! Below: `mg_calls`, whose writes undo a refused statement, `mg_plan` and `mg_rows`. Above: sessions
//! and scripts.
//! Not here: the beginning and the end of transactions.
#![tactic(auto)]

mod changing;
mod creating;
mod ending;
mod laws;
mod making;
mod parts;
mod phase;
mod points;
mod reading;
mod run;
mod selecting;
mod starting;

pub use changing::{change, start_to_write};
pub use creating::{create, retry, turned_with};
pub use laws::statements_go_on_beside_others;
pub use making::make_writes;
pub use parts::{is_insert, is_select, is_writing};
pub use phase::{Changing, Inserting, NewTable, Phase, Reading, Step, Turn};
pub use points::{go_back, save};
pub use reading::read;
pub use run::Run;
pub use selecting::{answer, as_answer};
