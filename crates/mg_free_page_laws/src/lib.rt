//! How many of the free pages each batch of changes takes, and that it is refused for want of pages only where fewer are
//! free.
//!
//! A page is free where the inventory page of its region does not mark it as used. So many are free at least, where
//! each number below the count has a free page of its own (`HasFree` of mg_space).
//!
//! Owns: how many free pages a change of pages takes at most (`TakesAtMost`), and that it is refused for want of them
//! only where fewer are free (`IsNotFull`). Of each batch it is known (`BatchLaws`): a place for a record, a record
//! that is made, and a version that is pushed or replaced take two pages at most, a data page and the pointer page
//! that names it; a version that is taken out takes none. A row takes two such batches. A number that is drawn takes
//! one page at most, its bits take none. The rows of a table that are taken out take none.
//!
//! The same is said of what a cache shows, whatever image its disk tells (`SpendsAtMost`, `IsNotShort`): of calls that
//! only read, of page writes, and of one call after another.
//!
//! There is no program here: the function does nothing, and its contract is a law.
//!
//! Invariant: none, it keeps no state.
//! Below: `mg_space`, `mg_heap`, `mg_chain`, `mg_row_writes` and `mg_table_batch`, whose clauses say what each batch
//! changes, and why it is refused.
//! Above: `mg_no_damage_laws`, which says it of the calls of an engine.
//! Not here: the numbers that a program is promised (`mg_records`, module `Room` of its specs).
#![tactic(auto)]

mod batches;

pub use batches::batches_take_few;
