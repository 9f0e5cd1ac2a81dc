//! The page inventory page: which pages of a region of the file are used, a bit for each.
//! It tests and sets bits on a page that the caller lends, and takes no memory.
//!
//! Owns: a page of kind 2, a set of used numbers.
//!
//! | at | width | field |
//! |---|---|---|
//! | 0 | 16 | common part |
//! | 16 | P - 16 | bits, lowest first; 1 means used |
//!
//! A page has 8 * (P - 16) bits: 8,064 at P = 1024, 32,640 at P = 4096.
//!
//! Invariant: every bit is lawful, so no byte from 16 on is refused.
//! Below: `mg_base`, for fields, and the tests of a page. Above: `mg_space`, which takes pages.
//! Not here: which page of the file a bit stands for, and which pages are never handed out.
#![tactic(auto)]

mod bits;
mod page;

pub use bits::{first_free, is_used, set_used};
pub use page::{BITS_AT, PIP_KIND, check_pip, new_pip};
