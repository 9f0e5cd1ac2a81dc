//! What follows of the definitions. There is no program here: each function does nothing, and its contract is a law.

ghost use Rattle.mg_program.specs.Acknowledged.{AcknowledgedIsHeld};
ghost use Rattle.mg_program.specs.Complete.{RunsAreComplete};

use mg_base::{Disk, Sink, Source};
use mg_runs::lines_are_held;

/// A run on which nothing fails comes to the end of its script, but for want of memory.
pub fn runs_are_complete<D: Disk, S: Source, K: Sink>()
    ensures { RunsAreComplete D.meaning S.meaning K.meaning }
{}

/// A commit that was acknowledged is on the file, from its line on: a run that is stopped at any page write leaves what
/// was durable behind each of its lines.
pub fn acknowledged_commits_are_held<D: Disk, S: Source, K: Sink>()
    ensures { AcknowledgedIsHeld D.meaning S.meaning K.meaning }
{
    lines_are_held::<D, K>();
}
