//! Databases made by hand: what is read of them, and what is refused.

mod alike;
mod cases;
mod catalog;
mod cells;
mod layout;
mod nodes;
mod overlays;
mod pages;
mod reading;
mod seek;
mod sheets;
mod soundness;
mod tables;
mod trees;
