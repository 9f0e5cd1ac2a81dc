//! A disk whose page writes are made behind its caller, by one thread that owns the device.
//!
//! A caller writes into a mirror of all pages and goes on. What it wrote goes to the thread as a job,
//! through a ring; a receipt of each job comes back through a second one. A settle waits for its own
//! receipt, and so for those of all jobs before it.
//!
//! Owns: the two rings and their page buffers, the mirror, and the device from `start` to `finish`.
//!
//! | part | what it is |
//! |---|---|
//! | `Job`, `Receipt` | what goes through the rings, numbered from 1 |
//! | `Worker` | the device with the far ends: it gives the device one job after another, until one fails |
//! | `Behind` | the disk: the near ends with the spare page buffers, and the mirror |
//! | `Writer` | the thread's handle, which stays with the thread that made it |
//! | `Started` | which start it was: a type parameter that ties the parts of one start together |
//!
//! Invariant: the mirror is what the jobs that were issued, in their order, make of what the device
//! held at the start; the device is what those that it was given make of it (`specs/Jobs.antt`). What
//! is known in the end is `Ends` (`specs/Ends.antt`), a clause of `Writer::finish`.
//!
//! Room: `start` takes all memory that is ever taken, a mirror of 16,384 pages and 64 page buffers.
//!
//! Below: `mg_base`, for disks and pages, and `rtrb`, for rings. Above: whoever runs an engine over it.
//! Not here: what a crash leaves while the writer runs. The disk tells nothing of crashes.
#![tactic(auto)]

mod behind;
mod fault;
mod job;
mod line;
mod mirror;
mod naming;
mod opened;
mod patience;
mod started;
mod worker;
mod writer;

pub use behind::Behind;
pub use fault::BehindFault;
pub use job::{Job, Numbered, Receipt, Task};
pub use mirror::{MOST_PAGES, Mirror};
pub use opened::{Opened, start};
pub use started::Started;
pub use worker::Worker;
pub use writer::Writer;
