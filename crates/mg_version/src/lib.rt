//! Cells: what stands in the slots of a data page. A cell is an anchor, which says where the newest
//! version of its record is, or a version itself. Here a cell becomes bytes, and bytes a cell.
//!
//! Owns: the one spelling of each cell.
//!
//! | at | width | anchor |
//! |---|---|---|
//! | 0 | 1 | 1 |
//! | 1 | 10 | link to the newest version: page (4), slot (2), transaction (4) |
//!
//! | at | width | version |
//! |---|---|---|
//! | 0 | 1 | 2 |
//! | 1 | 1 | flags: 1 deleted, 2 has a back version |
//! | 2 | 2 | format, at least 1 |
//! | 4 | 4 | transaction that wrote it |
//! | 8 | 10 or 0 | link to the back version, where flag 2 is set |
//! | 18 or 8 | the rest | the packed row |
//!
//! Invariant: no two cells have one spelling, and bytes are read exactly where they are a spelling.
//! Below: `mg_base`, for numbers and fields. Above: `mg_heap` and `mg_chain`, which follow links.
//! Not here: what the packed row says, where a cell stands, and cells of kind 3 (a version in its
//! primary slot), which are refused.
#![tactic(auto)]

mod cell;
mod reading;
mod writing;

pub use cell::{
    ANCHOR, ANCHOR_LEN, BACK_AT, BODY_AFTER_BACK, Cell, CellFault, DELETED, FLAGS_AT, FORMAT_AT,
    HAS_BACK, KIND_AT, LINK_LEN, Link, NEWEST_AT, TX_AT, VERSION, Version,
};
pub use reading::read_cell;
pub use writing::write_cell;
