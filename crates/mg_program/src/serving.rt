//! The lines of a script are obeyed on a disk.

ghost use Rattle.std.specs.Prelude.{◌≡◌, ◌≤◌, ℕ, All, List, false};
ghost use Rattle.mg_engine.specs.Places.{places};
ghost use Rattle.mg_engine_meaning_laws.specs.Openings.{IsOpenedOver};
ghost use Rattle.mg_works.specs.Works.{has_session};
ghost use Rattle.mg_script.specs.declared.line.Line.{Line as AnyLine};
ghost use Rattle.mg_scripts.specs.declared.lines.LinesEnd.TheVariants.{Whole};
ghost use Rattle.mg_scripts.specs.Runs.{CanBeObeyed};
ghost use Rattle.mg_runs.specs.Laws.{closed_end as closed_end_of};
ghost use Rattle.mg_program.specs.Serving.{HasObeyed, Serves, cut_end as cut_end_of};

use mg_base::Sink;
use mg_core::Place;
use mg_device::GrowingDisk;
use mg_engine::Engine;
use mg_model::Refusal;
use mg_pending::PLACES;
use mg_run_ends::{RunEnd, say_end};
use mg_runs::{
    closings_fail, lines_fail, openings_are_judged, openings_fail, other_files_are_refused,
    runs_begin, runs_close, runs_stop,
};
use mg_script::Line;
use mg_script_ends::told;
use mg_scripts::{LinesEnd, Ran, run_script};
use std::alloc::Global;

/// Opens a disk, obeys lines on it, and puts behind what they print the line that says why the run has ended.
///
/// `limit` is the page limit that is asked for, and `clean` how many clean pages are kept in memory.
pub(crate) fn serve<D: GrowingDisk, K: Sink>(
    alloc: Global,
    disk: D,
    limit: u32,
    clean: u32,
    lines: &[Line],
    sink: &mut K,
) -> (RunEnd, D)
    requires obeyable { All CanBeObeyed lines.now }
    requires some { 1 ≤ clean }
    ensures { Serves D.meaning K.meaning limit lines.now disk result.1 sink.old sink.new result.0 }
{
    openings_are_judged::<D, K>();
    other_files_are_refused::<D, K>();
    openings_fail::<D>();
    match Engine::open_with(alloc, disk, limit, clean) {
        Ok(engine) => obey(alloc, engine, lines, sink),
        Err((disk, refusal)) => (say_end(alloc, RunEnd::Outside(refusal), sink), disk),
    }
}

// Obeys lines on an engine that was opened, and ends the run.
fn obey<D: GrowingDisk, K: Sink>(
    alloc: Global,
    engine: Engine<D>,
    lines: &[Line],
    sink: &mut K,
) -> (RunEnd, D)
    requires obeyable { All CanBeObeyed lines.now }
    requires free { (session : ℕ) → has_session engine.works session ≡ false }
    ensures { (disk : D) (limit : ℕ) → IsOpenedOver D.meaning disk limit engine
        → Serves D.meaning K.meaning limit lines.now disk result.1 sink.old sink.new result.0 }
{
    runs_begin::<D>();
    let mut engine = engine;
    let size = engine.page_size();
    // The room is taken before the first line: where it is short, nothing was done yet.
    let Ok(mut refusals) = Vec::with_capacity(alloc, PLACES) else {
        let ran = Ran {
            end: LinesEnd::NoMemory,
            fine: true,
        };
        return end_run(alloc, engine, ran, &[], sink);
    };
    let ran = run_script(&mut engine, alloc, size, lines, sink, &mut refusals);
    end_run(alloc, engine, ran, refusals.as_slice(), sink)
}

// Closes the database where all lines were obeyed and what was live was rolled back; else the disk is left as it is.
fn end_run<D: GrowingDisk, K: Sink>(
    alloc: Global,
    engine: Engine<D>,
    ran: Ran,
    refusals: &[Refusal],
    sink: &mut K,
) -> (RunEnd, D)
    ensures { (disk : D) (limit : ℕ) (before : K) (lines : List AnyLine)
        → HasObeyed D.meaning places K.meaning limit lines disk engine before sink.old refusals.now ran.end
        ran.fine → Serves D.meaning K.meaning limit lines disk result.1 before sink.new result.0 }
{
    other_files_are_refused::<D, K>();
    runs_stop::<D, Place, K>();
    runs_close::<D, Place, K>();
    lines_fail::<D, Place>();
    closings_fail::<D, Place>();
    match cut_end(ran.end, refusals) {
        Some(end) => {
            let told = say_end(alloc, end, sink);
            (told, engine.into_disk())
        }
        None => {
            // The line is said behind the closing, since that may be refused.
            let (disk, closed) = engine.close();
            (say_end(alloc, closed_end(ran.fine, closed), sink), disk)
        }
    }
}

// How a run ends that doesn't close the database.
fn cut_end(end: LinesEnd, refusals: &[Refusal]) -> Option<RunEnd>
    ensures { result ≡ cut_end_of end refusals.now }
{
    match end {
        LinesEnd::Whole => told_end(refusals),
        LinesEnd::Stopped(refusal) => Some(RunEnd::InLine(refusal)),
        LinesEnd::NoMemory => Some(RunEnd::Outside(Refusal::Memory)),
        LinesEnd::SinkFailed => Some(RunEnd::Stream),
    }
}

// The same, where all lines were obeyed: by a rolling back that was refused.
fn told_end(refusals: &[Refusal]) -> Option<RunEnd>
    ensures { result ≡ cut_end_of Whole refusals.now }
{
    match told(refusals) {
        Some(refusal) => Some(RunEnd::Outside(refusal)),
        None => None,
    }
}

// How a run ends whose database was closed, or not.
fn closed_end(fine: bool, closed: Result<(), Refusal>) -> RunEnd
    ensures { result ≡ closed_end_of fine closed }
{
    match closed {
        Ok(()) => RunEnd::Whole { fine },
        Err(refusal) => RunEnd::Outside(refusal),
    }
}
