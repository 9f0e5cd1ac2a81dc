//! The command `run`: a script is obeyed on a disk.

ghost use Rattle.std.specs.Prelude.{◌≡◌, ◌≤◌, ℕ, List, Some};
ghost use Rattle.mg_base.specs.Image.{Image};
ghost use Rattle.mg_model.specs.declared.opening.Opening.{Opening};
ghost use Rattle.mg_run_ends.specs.Ends.{EndsWith};
ghost use Rattle.mg_runs.specs.Entry.{IsEntry, limit_on};
ghost use Rattle.mg_runs.specs.OtherFiles.{HoldsNoDatabase};
ghost use Rattle.mg_runs.specs.Promise.{LeavesFile, Promise, ScriptCauses, StreamCauses};

use crate::serving::serve;
use mg_base::{Sink, Source};
use mg_device::GrowingDisk;
use mg_run_ends::{RunEnd, read_lines, say_end};
use mg_scripts::lines_of_scripts_can_be_obeyed;
use std::alloc::Global;

/// Obeys the script that the source gives, on a disk that is opened for it and comes back. Behind the transcript the
/// sink gets the line that says why the run has ended, if a fault outside the lines has stopped it.
///
/// The script is read whole before the disk is first asked, and a commit's line goes into the sink after the disk was
/// settled. Where nothing stops the run, what is live at the end of the script is rolled back, every dirty page is
/// written and the disk settled; where something does, nothing is written any more.
///
/// `limit` is the greatest number of pages that the database may have: no image that a crash might leave has more, or more
/// than the disk had, if that is greater, or than a new database has (`within` of `Headline`). Where as many pages are
/// free by it at the start as the lines may take, none of them is answered DATABASE FULL; where one is, it names this
/// number (`room`).
///
/// `clean` is how many clean pages are kept in memory, at least one.
pub fn run<D: GrowingDisk, S: Source, K: Sink>(
    alloc: Global,
    disk: D,
    limit: u32,
    clean: u32,
    source: &mut S,
    sink: &mut K,
) -> (RunEnd, D)
    requires { 1 ≤ clean }
    ensures disk { EndsWith D.meaning disk result.1 result.0 }
    ensures most_writes { D.meaning.most_writes result.1 ≡ D.meaning.most_writes disk }
    ensures streams { StreamCauses S.meaning K.meaning source.old source.new sink.old sink.new result.0 }
    ensures script { ScriptCauses S.meaning source.old disk result.1 result.0 }
    ensures headline { (size : ℕ) (image : Image) (o : Opening) (script : List ℕ)
        → IsEntry D.meaning disk limit size image o → S.meaning.left source.old ≡ Some script
        → Promise D.meaning K.meaning size (limit_on limit image) o script disk result.1 sink.old sink.new result.0 }
    ensures other_files { (size : ℕ) (image : Image) → HoldsNoDatabase D.meaning disk size image
        → LeavesFile D.meaning K.meaning size image disk result.1 sink.old sink.new result.0 }
{
    lines_of_scripts_can_be_obeyed();
    match read_lines(alloc, source) {
        Ok(script) => serve(alloc, disk, limit, clean, script.as_slice(), sink),
        Err(end) => (say_end(alloc, end, sink), disk),
    }
}
