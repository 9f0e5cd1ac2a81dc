//! A disk of which a number of page writes pass, as a machine does that stops between two of them.
//!
//! Owns: `Stopped`, which passes the first page writes and fails each later one, whatever the disk behind it does; and the
//! trait `CountsWrites`, a disk of which it is known how a page write is counted.
//!
//! What it tells of how many page writes pass in all is a number that no call changes (`stopped_meaning`): what the disk
//! behind it has counted, and what may pass still, as far as that counts. So over a run of any calls that disk is asked for
//! no more page writes than pass, and for all of them where one was refused (`stopped_disks_are_asked_for_no_more`).
//!
//! Invariant: no more page writes have passed than may, and all of them where one was refused.
//! Below: `mg_base`, the disk; `mg_device`, whose disk counts no page writes. Above: the program.
//! Not here: why a machine stops.
#![tactic(auto)]

mod counting;
mod laws;
mod stopped;

pub use counting::CountsWrites;
pub use laws::stopped_disks_are_asked_for_no_more;
pub use stopped::Stopped;
