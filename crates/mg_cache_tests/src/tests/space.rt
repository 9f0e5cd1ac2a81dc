//! Pages that are taken, and what pages demand of each other.

mod links;
mod taking;
