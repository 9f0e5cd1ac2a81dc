//! The engine's calls as steps of the law of careful write.
//!
//! # What the calls of an engine owe to the law of careful write, by what an engine knows of its pages
//!
//! Owns: the one invariant that an engine keeps from call to call (`EngineBears`; `IsBorne` hides what disk and pool
//! want). The cache bears its demands (`BearsTables` of mg_demand_laws); settled are exactly the transactions that
//! have committed, and of one that has asked for its commit each version that is wanted is on the disk, or its page is
//! marked; the header is wanted, each table of the layout by its first pointer page, and the number of each active
//! transaction. It holds where a sound image is opened (`OpeningBears`), and after each of these:
//!
//! | call | record | law | file |
//! |---|---|---|---|
//! | pages are read, or written | `KeepsStore`, `HasWritten` | `ReadsKeep`, `PageWritesKeep` | `Stores` |
//! | a batch is changed | `ChangesStore` (`own_change` of `ChangesOwn`) | `StoreChangesKeep` | `Stores` |
//! | a record is written | `TakesPlace`, `MakesFirst`, `PushesOver`, .. | `PlacesPay`, `FirstsPay`, `PushesPay`, .. | `Writes` |
//! | a row is written, into a table without indexes | `BareLays` of mg_row_writes | `LaysGo`, as steps | `Laying` |
//! | a table is made | `GetsWanted`, `MakesAtOnce` of mg_table_batch | `GrowthsGo`, `MakingsGo`, as steps | `Making` |
//! | a number is drawn | `DrawsFrom` of mg_tie_laws | `DrawsKeep` | `Numbers` |
//! | a commit is asked for | `MarksAll` of mg_pool | `AskingKeeps` | `Fates` |
//! | it is made | `CommitsBits` of mg_txlist | `CommitsKeep` | `Numbers` |
//! | memory tells otherwise, as after a rollback | | `TellingKeeps` | `Fates` |
//!
//! So it is after any number of them (`GoesOn`), and every image that a crash may leave is linked from the roots of the
//! image that was opened (`RunsStayLinked`).
//! There is no program here: each function does nothing, and its contract is a law.
//!
//! # The calls of an engine as steps of its runs: by the engine's own contracts each is one, or several
//!
//! Owns: an engine at a moment, by what it has in memory (`moment_of`), and for each call the step that it is (`GoesBy` of
//! mg_engine_demand_laws).
//!
//! | call | record, of mg_core where none is named | law |
//! |---|---|---|
//! | a transaction begins | `Begins` | `BeginsGo` |
//! | a commit is asked for | `Asks` | `AsksGo` |
//! | a page is written | `WritesOne` | `PagesGo` |
//! | a commit is made | `Commits` | `CommitsGo` |
//! | a transaction is rolled back | `RollsBack` | `RollbacksGo` |
//! | a row is put | `PutsRow` | `RowsGo` |
//! | a table is made | `PutsTable` of mg_table_making | `TablesGo` |
//! | pages are read | `KeepsStore` | `ReadsGo` |
//!
//! So whatever calls an engine has obeyed (`ObeysAll`) that was opened over a sound image, every image that a crash may
//! leave is linked from the roots of that one (`EnginesStayLinked`).
//! There is no program here: each function does nothing, and its contract is the laws.
//!
//! There is no program here: each function does nothing, and its contract is a law.
//!
//! Invariant: none, it keeps no state.
//! Below: `mg_demand_laws`, of the batches; `mg_core`, `mg_engine_step_laws`. Above: nobody yet: these are promises of their own.
//! Not here: the premises that follow from what an engine stands for.
#![tactic(auto)]

mod calls;
mod laws;
mod runs;
mod stores;

pub use calls::{calls_go, engines_stay_linked, tables_are_made};
pub use laws::{caches_keep, fates_keep, openings_bear, records_are_wanted};
pub use runs::{rows_go, runs_stay_linked, tables_go};
pub use stores::{numbers_keep, stores_keep, writes_pay};
