//! How a run comes to its end.

ghost use Rattle.std.specs.Prelude.{◌≡◌};
ghost use Rattle.mg_run_ends.specs.Ends.{refused_status as refused_status_of, status_of};

use crate::status::Status;
use mg_model::Refusal;

/// The most bytes that a script may have.
pub const SCRIPT_MOST: usize = 1_048_576;

/// How a run comes to its end.
#[derive(Clone, Copy, Debug, PartialEq, Eq)]
pub enum RunEnd {
    /// Every line was obeyed, and the database closed. `fine` tells whether each line's last answer was Ok.
    Whole { fine: bool },
    /// A refusal has stopped it that a line answered, and printed.
    InLine(Refusal),
    /// A refusal has stopped it outside the lines: at the opening, at the end, or for want of memory for a line.
    Outside(Refusal),
    /// The source failed, or the sink did.
    Stream,
    /// The script has too many bytes.
    ScriptTooLong,
}

impl RunEnd {
    /// The status of a run that ends so.
    pub fn status(self) -> Status
        ensures { result ≡ status_of self }
    {
        match self {
            RunEnd::Whole { fine: true } => Status::OK,
            RunEnd::Whole { fine: false } => Status::NOT_ALL_OK,
            RunEnd::InLine(refusal) | RunEnd::Outside(refusal) => refused_status(refusal),
            RunEnd::Stream => Status::STREAM,
            RunEnd::ScriptTooLong => Status::LIMIT,
        }
    }
}

// The status of a run that this refusal has ended.
fn refused_status(refusal: Refusal) -> Status
    ensures { result ≡ refused_status_of refusal }
{
    match refusal {
        Refusal::DiskRead { .. } | Refusal::DiskWrite { .. } | Refusal::Offline { .. } =>
            Status::DISK,
        Refusal::NotADatabase { .. } | Refusal::Damaged { .. } => Status::IMAGE,
        Refusal::Memory => Status::MEMORY,
        _ => Status::NOT_ALL_OK,
    }
}
