//! Tests of single pages as a validation makes them, beyond those of the pages' own crates: the
//! header page with what is wanted of each field, and the numbers of a transaction inventory page
//! that are not drawn.
//!
//! Owns: these two tests. Each answers the first damage that it finds, with what was found and what
//! is wanted, and reads bytes that the caller lends.
//!
//! Invariant: none, it keeps no state, and takes no memory.
//! Below: `mg_header` and `mg_tip`, for the two kinds of pages; `mg_findings`, for what the first of
//! several tests tells of; `mg_image`, for which bits are those of a number that is not drawn. Above: the rungs of a validation.
//! Not here: other pages, and where in the image these stand.
#![tactic(auto)]

mod header;
mod laws;
mod undrawn;

pub use header::check_header_page;
pub use laws::{lawful_headers_pass, undrawn_numbers_pass};
pub use undrawn::check_undrawn;
