//! Careful write: which page has to reach the disk before which, and why a disk that is written in
//! such an order is never left with a link to nothing.
//! The graph keeps the orders between dirty pages and tells which page may be written next; the law
//! says what these orders give, whatever the format of the pages, and what a change of pages owes for
//! it to go on.
//!
//! Owns: no bytes. A page is any number; its content is any list of bytes.
//!
//! The graph gives each entered page a place, and keeps two square tables of bits by places: the
//! direct orders, and all pairs that a chain of orders joins. So a cycle is told by one bit. For n
//! places it has 2 * n * n bits, a byte each: 512 KiB at 512 places.
//!
//! Invariant: a page stands at one place, orders are between places that have pages, the second
//! table is the transitive closure of the first, and no page precedes itself.
//! Below: `mg_base`, for want of memory. Above: `mg_pool`, which enters each dirty page.
//! Not here: what is on a page, which orders a change of pages needs, and any write to a disk.
#![tactic(auto)]

mod bits;
mod graph;
mod links;
mod places;
mod ready;
mod rows;

pub use graph::{Graph, Order};
pub use links::{Demand, Links, careful_write};
