//! What goes through the rings: jobs one way, receipts the other.

ghost use Rattle.std.specs.Prelude.{◌≡◌, ◌+◌, length};

use mg_base::Bytes;
use rtrb::Protocol;

/// What the device is asked for.
#[derive(Drop)]
pub enum Task {
    /// A page write: `bytes` is one page long.
    Write { page: u32, bytes: Bytes },
    /// What was written is to stay.
    Settle,
}

/// A numbered task. The first job has the number 1.
#[derive(Drop)]
pub struct Job {
    pub number: u64,
    pub task: Task,
}

/// What the worker says of a job once the device has done it or failed at it. The page buffer of a
/// page write comes back with it.
#[derive(Drop)]
pub struct Receipt {
    /// The job's number.
    pub number: u64,
    /// Whether the device failed at it.
    pub failed: bool,
    pub buffer: Option<Bytes>,
}

/// Jobs and receipts come in the order of their numbers, and none is left out.
#[derive(Clone, Copy)]
pub struct Numbered;

impl Protocol<Job> for Numbered {
    ghost allows = { λ before job. job.number ≡ length before + 1 };
}

impl Protocol<Receipt> for Numbered {
    ghost allows = { λ before receipt. receipt.number ≡ length before + 1 };
}
