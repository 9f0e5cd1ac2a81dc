//! Data pages of 1024 bytes and more.

mod change;
mod check;
mod deeds;
