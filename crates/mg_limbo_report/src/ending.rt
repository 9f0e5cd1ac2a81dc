//! How a command comes to its end that only looks at a file.

ghost use Rattle.std.specs.Prelude.{◌≡◌};
ghost use Rattle.mg_limbo_report.specs.Report.{status_of};

use mg_model::Refusal;
use mg_run_ends::{RunEnd, Status};

/// How a command comes to its end that only looks at a file, and prints what it has seen.
#[derive(Clone, Copy, Debug, PartialEq, Eq)]
pub enum LookEnd {
    /// What was seen was printed.
    Told,
    /// The sink failed at it.
    Stream,
    /// Nothing was told: it was refused, for the disk, for what it holds, or for want of memory.
    Refused(Refusal),
}

impl LookEnd {
    /// The status of the program where the command ends so.
    pub fn status(self) -> Status
        ensures { result ≡ status_of self }
    {
        match self {
            LookEnd::Told => Status::OK,
            LookEnd::Stream => Status::STREAM,
            LookEnd::Refused(refusal) => RunEnd::Outside(refusal).status(),
        }
    }
}
