//! Version chains.

mod reading;
mod writing;
