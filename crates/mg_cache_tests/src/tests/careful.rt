//! Orders of page writes.

mod graph;
mod links;
