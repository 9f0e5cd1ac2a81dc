//! Whole runs over a disk behind a writer thread.

mod beside;
mod runs;
mod starts;
