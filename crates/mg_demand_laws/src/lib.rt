//! The law of careful write for what a database has: what each batch owes, what it pays, and that crash images are linked from their roots.
//!
//! # What every batch owes to the law of careful write, for any format of links
//!
//! Owns: the invariant of a careful writer (`BearsItsDemands`), what a batch pays (`PaysDemands`), and the laws
//! that page writes and batches keep the invariant, and that crash images are linked where it holds.
//! A batch owes the links alone that its own pages come to hold: what such a link leads to is wanted,
//! and stands on the holder's own page, or is ordered before it, or is on the disk already.
//!
//! Where batches also drop what was wanted, as the cell of a version that is taken back, the invariant says
//! more (`BearsAll`): which wanted things last, since the disk has them, and that a link of the disk to one
//! that may be dropped stands in the pool too, or its page precedes. A batch then puts the page that led to
//! what it drops before the page that had it (`PaysAndDrops`).
//!
//! `Wanted` has what is wanted of an image from some roots on, and when the image is linked from them:
//! a property that the roots have, that goes on along links, and that makes sure that what is wanted is
//! met (`linked_where`).
//!
//! The definitions stand in `specs/Bearing` and `specs/Freeing`. There is no program here: each function
//! does nothing, and its contract is a law.
//!
//! # Each order is needed that pays for a link
//!
//! What goes wrong where an order between pages is left out, for any format of links: the other side of the law of
//! careful write.
//!
//! Owns: the law that each order is needed that pays for a link (`OrdersAreNeeded`). A page comes to lead to a thing that
//! the disk does not have yet (`LeadsAhead`). Where the page of that thing does not precede it, there is a closed set with
//! the one and without the other, so a crash may leave just its pages; and what is wanted of the first page then leads to
//! nothing. So it is with the order of a page before one from which a thing goes, to which it led (`LeadsBehind`,
//! `LeavingOrdersAreNeeded`).
//!
//! # What each step of a batch pays
//!
//! What each step of a batch pays to the law of careful write: the taking of a page, the making of one, a
//! raised header, the bits of a transaction, an entry of a pointer page, a cell of a data page.
//!
//! Owns: how the pages of a database are wanted (`IsWanting`): what is wanted is met and wanted in turn, a
//! page of which something is wanted is marked as used, and versions are wanted of data pages alone; what a
//! change of pages pays (`Pays`), and what it drops (`Drops`); and for each kind of step the law that it pays
//! or drops, between two views. Each link that a step newly makes has to be paid for (`IsPaid` of
//! mg_demand_laws): the premise of the law says which these are, and the orders of the batch are what the callers
//! pay them with. A link to a version that may be dropped (`may_go`) stays, or its page is ordered first.
//! Several steps are one (`two_pay`), so a batch is judged view by view.
//!
//! | file | has |
//! |---|---|
//! | `Wanting`, `Steps` | the definitions: what pages are wanted for, what a change pays; the steps |
//! | `StepLaws` | the laws as the contracts name them |
//! | `WantingLaws` | a change of one page; two changes; more orders |
//! | `Met`, `KindLaws`, `VersionLaws` | what a page is that meets a demand; what is wanted of a page, by its kind; only data pages lead to versions |
//! | `TakeLaws`, `NumberLaws`, `TipLaws`, `PointerLaws`, `CellLaws`, `FreeLaws` | each step pays, or drops |
//!
//! # A sound image is linked from its roots: what the pages of a database demand of each other, they have
//!
//! Owns: the roots of an image (`roots_of`): its header, and of the tables that committed or limbo catalog
//! rows name the first pointer pages and the roots of the indexes, each with its bit; and the law that a
//! sound image keeps what is wanted from them on. With the law that every crash image is sound, each crash
//! image is linked.
//!
//! A data page is wanted at its place among those of its table, which its pointer page alone tells where
//! all pointer pages before it are full (`IsFilled`): no rule of soundness says so, but each page that the
//! program adds to a chain comes behind full ones.
//!
//! `proofs/SoundLemmas` goes through the demands by their kinds. There is no program here: the function
//! does nothing, and its contract is the law.
//!
//! # The rows of the table of orders, one by one
//!
//! The rows of the file format's table of orders that pay a demand, each as a law: without this order there is a closed
//! set whose overlay keeps no demand of that page.
//!
//! Owns: what a changed page leads to by its bytes, row by row, and that the page of that comes before it (`ComesFirst`):
//! where the disk's page does not have the thing, and does not precede the changed page, a crash may leave the changed
//! page, with those before it, and without the thing (`IsNeeded` of mg_demand_laws).
//!
//! | a changed page | comes after | law |
//! |---|---|---|
//! | the header | the last transaction inventory page, and its bit | `LastTipRow` |
//! | the header, where a database is made | the catalog's first pointer page, and its bit | `CatalogRow` |
//! | a transaction inventory page | the one before it, and its bit | `PrevTipRow` |
//! | a pointer page | the data page of an entry, and its bit | `EntryRow` |
//! | a pointer page | the next one, and its bit | `NextPointerRow` |
//! | a version's page | the header with a next transaction above its own | `NumberRow` |
//! | a version's page | the page of the version behind it | `BackRow` |
//! | a primary slot's page | the page of its version | `SlotRow` |
//! | a transaction inventory page with bits | the header with a next transaction above that one | `BitsRow` |
//! | an index page | a child, and its bit; the right neighbour, and its bit | `ChildRow`, `RightRow` |
//! | the page of a freed cell | the page of the slot that led to it | `FreedRow` |
//!
//! # What each batch of a layer pays, and the law of runs
//!
//! What the batches of this engine pay to the law of careful write, as steps between views with their
//! orders; and that a caller who makes any sequence of batches that pay keeps one invariant.
//!
//! Owns: the invariant (`BearsLinks`: the cache bears its demands, at the links of the file format), runs of
//! page writes and batches that pay, and then drop (`Goes`), and the law that a run keeps the invariant, with
//! every root that disk and pool had, and leaves crash images that are linked (`RunsBear`); over a sound
//! image that begins so, from that image's roots (`CrashesAreLinked`). Of batches:
//!
//! | batch | file | orders that pay |
//! |---|---|---|
//! | a number is drawn (`draw` of mg_txlist) | `DrawDemands` | a new inventory page and its bit before the header; the last one and its bit before the new one |
//! | the bits of a transaction (`mark_committed` of mg_txlist) | `CommitDemands` | the header before the page |
//! | a table gets a data page, and maybe a pointer page that lists it (mg_heap) | `GrowDemands` | the page and its bit before the pointer page, and that and its bit before the last one |
//! | a version is written, first or over another one (mg_chain) | `CellDemands` | the header and the page of the version behind before the version's page, that before the slot's page |
//! | a slot is turned away from a version that may be dropped (mg_chain) | `CellDemands` | the slot's page before the version's |
//! | a version is written over in its cell (mg_chain) | `CellDemands` | none |
//!
//! # The same by the records of the calls' own contracts
//!
//! What the batches of mg_heap, mg_chain and mg_txlist pay to the law of careful write, by the records of
//! those crates' own contracts, so that a caller keeps one invariant over a cache.
//!
//! Owns: the ties from the calls' clauses to the laws over views. A caller who knows what is wanted of a table's
//! pages (`WantsTable`) and of a record's page, and that a number is drawn, learns of each batch what it newly
//! wants and that it pays (`Pays`); the cache's change of it then leaves the links borne (`ChangesBear`).
//!
//! | call | record | law | file |
//! |---|---|---|---|
//! | `add`, `add_apart` of mg_heap | `GivesRoom` | `room_pays` | `GrowthTies` |
//! | `first`, `push` of mg_chain | `MakesRecord`, `Pushes` | `FirstPays`, `PushPays` | `CellTies` |
//! | `replace_own` of mg_chain, in the version's cell | `Replaces` | `OverPays` | `OwnTies` |
//! | the same, to another cell | `Moves` | `MovePays` | `MoveTies` |
//! | `back_out` of mg_chain | `TakesOut` | `OutPays` | `OwnTies` |
//! | `mark_committed` of mg_txlist | `CommitsBits` | `CommitPays` | `EndTies` |
//! | its versions last, and it is settled | `Lasting` | `WritesLast`, `CommitSettles` | `SettleTies` |
//! | a change by mg_pool | `ChangesOverlays` | `ChangesBear` | `PoolTies` |
//! | a change that pays and drops several times | `PaysInSteps` | `StepsBear`, `StepChangesBear` | `StepTies`, `PoolTies` |
//!
//! `Lists` has the orders of a batch and its pages as viewed; `Wants` what is known of pages that are wanted;
//! `TableTies` that a table's pages are, since its first pointer page is (`TablesAreWanted`); `OrderlyTies` that
//! pointer pages stay as that law wants them. `BatchSteps` has the steps of a batch.
//! There is no program here: each function does nothing, and its contract is a law.
//!
//! # Page writes of a pool, as steps that keep the links of the file format borne
//!
//! Owns: the law that what the cache tells of its page writes (`HasWritten` of mg_pool: those of `write_one`, one after
//! another, and those that a change makes first) is a step of the runs of mg_demand_laws (`WritesGo`). So a caller who
//! keeps the links borne (`BearsLinks`) keeps that over page writes, with every root that disk and pool have, and each
//! crash image is linked from these (`WritesBearLinks`). More may last then: whatever is wanted of the pages that are
//! clean now.
//!
//! # One cell leads to each version that is wanted
//!
//! What is wanted of the versions of records leads to each of them by one cell, and stays so over the batches of
//! mg_heap and mg_chain.
//!
//! Owns: the invariant of version chains (`IsChained`), as what is wanted has them: a page with a version that is wanted
//! is wanted as a data page, with its bit; each cell of such a page is well formed, so no version lies in its record's
//! primary slot; and no two cells lead to one version. An anchor leads to its record's newest version, and a version
//! that is wanted to the one behind it (`Leads`).
//!
//! From this follows what the laws of mg_demand_laws want to be told of a version that is moved or taken out: that with
//! its record's slot turned nothing that is wanted leads to it. So a caller has to know less of such a version
//! (`MayMove`, `MayTakeOut`).
//!
//! | batch | record | it stays so | file |
//! |---|---|---|---|
//! | a page with room is found, or the table grows | `GivesRoom` of mg_heap | `RoomStaysChained` | `RoomChains` |
//! | a version is pushed, a record is made | `Pushes`, `MakesRecord` of mg_chain | `PushStaysChained`, `FirstStaysChained` | `WriteChains` |
//! | an own version is written over | `Replaces` of mg_chain | `OverStaysChained` | `OwnChains` |
//! | it is taken out | `TakesOut` of mg_chain | `OutIsKnown`, `OutStaysChained` | `OwnChains` |
//! | it is moved to another cell | `Moves` of mg_chain | `MoveIsKnown`, `MoveStaysChained` | `MoveChains` |
//!
//! Where no data page changes, and none is wanted newly, versions stay chained by `chained_else` of `ChainedLaws`.
//! There is no program here: each function does nothing, and its contract is a law.
//!
//! # Batches of index trees
//!
//! What the steps of an index tree pay to the law of careful write: an index page made, a page that splits, an
//! entry put on the page above, a root that splits, a leaf that changes in place; and what whole calls pay that put
//! entries into trees and take them out.
//!
//! Owns: what an index page newly leads to (`LeadsOn`): its right neighbour, on its level, and its children, on the
//! level below. Each of them is wanted, and ordered before the page, as the inventory page with its bit is; what it
//! led to before costs nothing. Of a root only the tree is wanted, so it may come to stand on another level. A page
//! that is taken for a tree is wanted only from the step on that has the tree name it: its bit was, and it has its
//! content by then.
//!
//! | step, or call | record | law | file |
//! |---|---|---|---|
//! | an index page is made | `MakesNode` | `NewNodePays` | `NodeLaws` |
//! | it has another content | `ChangesNode` | `NodePays` | `NodeLaws` |
//! | it splits | `Splits` of mg_tree_overlay_laws | `SplitPays` | `TreeTies` |
//! | the page above names its new neighbour | `Rewrites`, `Names` | `NamePays` | `TreeTies` |
//! | a leaf gets an entry, or loses one | `Rewrites` | `LeafPays` | `TreeTies` |
//! | the root splits | `Grows` | `RootPays` | `TreeTies` |
//! | a row of steps | `ChangesTree` of mg_tree_overlay_laws | `RowsPay` | `RowTies` |
//! | a row that takes its own pages | `TakesItsPages` of mg_btree | `TakingRowsPay` | `TakenTies` |
//! | `insert` of mg_btree | `PutsAndTakes` | `InsertionsPay` | `CallTies` |
//! | `remove` of mg_btree | `TakesOut` | `RemovalsPay` | `CallTies` |
//! | a call on one of several trees | | `OneOfTreesPays` | `CallTies` |
//! | a part that changes no tree | | `BesideTreesPays` | `CallTies` |
//! | any sequence of calls | `MakesCalls` | `CallsPay` | `CallRows` |
//! | two parts of one batch | `PaysTrees` | `TreePartsAreOne` | `CallTies` |
//!
//! All that has to be known of a tree is that it stands, and that its root is wanted as the top of a tree and not as a
//! page of a level: its other pages are wanted then (`TreesAreWanted`, in `WholeTrees`).
//!
//! The invariant that a caller keeps (`BearsTrees`, in `TreeRuns`): the cache bears its demands, and in its pool
//! these trees stand, none of their pages is one of the page inventory, and they are wanted. Page writes keep it
//! (`WritesKeepTrees`), and so does a batch whose parts pay so (`BatchesKeepTrees`), in any sequence
//! (`TreeRunsBear`).
//!
//! `NodeSteps` has the definitions of single pages, `TreeRows` those of a row, `Taken` those of a tree whose pages are
//! wanted and of pages that were taken for it, `Calls` those of several trees; `NodeLinks` the children of a page, as
//! entries and as demands; `TakenSteps`, `SplitPays` and `GrowPays` each step of a row that takes its pages. A row's
//! orders are those that `insert` adds (`row_orders`). There is no program here: each function does nothing, and its
//! contract is a law.
//!
//! # Batches of tables
//!
//! What the batches of tables pay to the law of careful write, and the one invariant that a caller keeps from batch
//! to batch.
//!
//! Owns: what a part of a batch pays (`PaysPart`), where the table that it writes into is known by its first pointer
//! page (`KnowsTable`). Several parts, one after another, are one; behind each of them the table is known still, so
//! a batch of many rows is judged row by row. And the invariant (`BearsTables`): the cache bears its demands; of what
//! its pool wants the pointer pages are orderly, so that the pages of a table are known by its first one; and the
//! versions are chained (`IsChained`), so that nothing else leads to one that is moved or taken out. It holds where a
//! sound image is opened (`OpenedTablesBear`), and behind each batch that is changed and pays so.
//!
//! | part, or batch | record | it pays | and keeps the invariant |
//! |---|---|---|---|
//! | a page with room is found, or the table grows | `GivesRoom` of mg_heap | `RoomPays` | `PartKeeps` |
//! | a place is given for a record | `GivesSpot` of mg_chain | `PlacePays` | `PartKeeps` |
//! | a record is made there | `MakesRecord` of mg_chain | `RecordPays` | `PartKeeps` |
//! | a version is pushed | `Pushes` of mg_chain | `VersionPays` | `PartKeeps` |
//! | all of a new table | `FillsTable` of mg_table_batch | `FillPays` | `PartKeeps` |
//! | an own version is replaced, in its cell or not | `Replaces`, `Moves` of mg_chain | | `OverKeeps`, `MoveKeeps` |
//! | it is taken out | `TakesOut` of mg_chain | | `OutKeeps` |
//! | rows are taken out in one batch, which pays in steps (`PaysRows`) | | | `RowsBear` |
//! | a number is drawn | `DrawsOn` of mg_txlist | | `DrawKeeps` |
//! | the bits of a commit | `CommitsBits` of mg_txlist | | `CommitKeeps` |
//! | the cache's change of such a batch | `ChangesOverlays` of mg_pool | | `TablesBear`, `NewsBear` |
//!
//! No page demands a new table's first pointer page: it is a root, which `FillPays` wants newly (`PaysTable`).
//! There is no program here: each function does nothing, and its contract is a law.
//!
//! # Tables: batches and page writes in one run
//!
//! Any sequence of page writes and batches of the program keeps one invariant of the cache, and leaves crash images that
//! are linked from their roots.
//!
//! Owns: the law that page writes keep the invariant of tables (`BearsTables`: the links are borne, and of what the pool
//! wants the pointer pages are orderly and the versions chained) with all that was wanted but versions
//! (`WritesKeepTables`); runs of page writes and batches (`TablesGo`); and the law of runs (`RunsStayLinked`), also
//! where they begin with a sound image that is opened (`OpenedStaysLinked`).
//!
//! A batch is a step of a run where it pays whatever disk and pool want, of which some things are known: roots, which
//! both want, and more that the pool wants, as the number of the transaction that writes, the first pointer page of its
//! table, and the page of a record. Nothing that is known is dropped but versions, and what a batch newly wants is
//! known behind it. That batches of each kind pay so are the laws of `mg_demand_laws`; of a table that a transaction
//! writes into, what they want to be told is known by such a list (`TableIsKnown`, `PartsAreSteps`).
//!
//! # Tables and index trees in one run
//!
//! Page writes and batches, for tables and for their index trees, in any sequence, keep one invariant of the cache, and
//! leave crash images that are linked from their roots.
//!
//! Owns: the invariant over both (`BearsJointly`: the links are borne; of what the pool wants the pointer pages are
//! orderly and the versions chained; and these index trees stand and are wanted); and the laws that each kind of step
//! keeps it.
//!
//! | step | law | file |
//! |---|---|---|
//! | page writes | `WritesKeepJointly` | `JointSteps` |
//! | a batch that pays, whatever it drops | `BatchesKeepJointly` | `JointSteps` |
//! | a batch that takes rows out | `RowsKeepJointly` | `JointSteps` |
//! | a part for a table, which leaves the trees alone | `TablePartPays` | `JointParts` |
//! | a part for trees, which leaves tables alone | `TreePartPays` | `JointParts` |
//! | a call on one of several trees | `OneOfTreesPaysJointly` | `JointParts` |
//! | two parts of one batch, as a row and its index entries | `JointPartsAreOne` | `JointParts` |
//! | a part that is a whole batch | `JointPartKeeps` | `JointParts` |
//! | a part, and then a batch that may drop versions | `PartThenBatchPays` | `JointParts` |
//! | any sequence of steps | `JointRunsStayLinked` | `JointRuns` |
//!
//! A change for tables keeps the trees that it leaves alone (`LeavesTrees`): none of their pages changes, what was used
//! is used, and what it newly wants as an index page was not used. A change for trees keeps the tables where it leaves
//! them alone (`LeavesTables`): none of their pages in use changes, and neither those nor versions are newly wanted. An
//! insertion into a tree, and a removal, are such changes by their own contracts (`InsertionsLeaveTables`,
//! `RemovalsLeaveTables`).
//!
//! There is no program here: each function does nothing, and its contract is a law.
//!
//! Invariant: none, it keeps no state.
//! Below: `mg_careful`, the law of closed sets; `mg_space`, the links of the file format; the layers whose batches are judged, up to `mg_table_batch` and `mg_btree`. Above: `mg_engine_demand_laws`.
//! Not here: what an engine knows of its pages.
#![tactic(auto)]

mod batches;
mod bearing;
mod chains;
mod joint_runs;
mod needed;
mod rows;
mod sound;
mod steps;
mod table_runs;
mod tables;
mod ties;
mod tree_steps;
mod trees;
mod writes;

pub use batches::{
    crashes_are_linked, draws_pay, ends_pay, growth_pays, opened_images_bear, runs_bear,
    versions_pay,
};
pub use bearing::{all_is_borne, demands_are_borne};
pub use chains::{own_versions_are_unled, versions_stay_chained};
pub use joint_runs::{
    calls_leave_tables, changes_leave_each_other, joint_parts_pay, joint_runs_stay_linked,
    steps_keep_jointly,
};
pub use needed::orders_are_needed;
pub use rows::{index_rows, number_rows, table_rows, version_rows};
pub use sound::sound_images_are_linked;
pub use steps::{
    cells_pay, made_pages_pay, numbers_pay, pointer_pages_pay, steps_are_one, taken_pages_pay,
};
pub use table_runs::{
    opened_runs_stay_linked, parts_are_steps, runs_stay_linked, writes_keep_tables,
};
pub use tables::{
    numbers_bear, pointer_pages_stay_orderly, rooms_pay, rows_bear, tables_bear, tables_pay,
};
pub use ties::{
    changes_bear, commits_pay, commits_settle, own_versions_pay, paying_batches_drop_nothing,
    step_changes_bear, steps_bear, tables_are_wanted, writes_pay,
};
pub use tree_steps::{nodes_pay, tree_rows_pay, trees_pay};
pub use trees::{insertions_pay, removals_pay, tree_parts_pay, tree_runs_bear, trees_are_wanted};
pub use writes::page_writes_bear;
