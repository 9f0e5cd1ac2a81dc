//! The figures of a file: what its header says, whether a sweep is due, how many of its pages are
//! used, how many of them are transaction inventory pages.
//!
//! Owns: these figures as a definition (`AreFigures`), and the call that has them of the pages of a
//! file. It goes once over the numbers that a page may have.
//!
//! Invariant: none, it keeps no state, and takes no memory.
//! Below: `mg_check_inventory`, for the bits of pages; `mg_header`, for the fields of the header
//! page. Above: nobody yet; the command that prints them.
//! Not here: whether the file is damaged, the figures of tables, and the printed text.
#![tactic(auto)]

mod figures;

pub use figures::{Figures, figures_of};
