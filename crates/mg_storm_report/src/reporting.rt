//! The whole report.

ghost use Rattle.std.specs.Prelude.{◌≡◌, ◌≤◌, ◌++◌, true, length, IfOk, OnOk};
ghost use Rattle.mg_model.specs.History.{Entries};
ghost use Rattle.mg_script.specs.declared.line.TheConstants.{SESSIONS};
ghost use Rattle.mg_trace.specs.Openings.{opening_text};
ghost use Rattle.mg_trace.specs.Putting.{Has};
ghost use Rattle.mg_storm_report.specs.Report.{answers_in, report_text, report_with};

use crate::replies::put_replies;
use mg_base::Memory;
use mg_interleavings::Answered;
use mg_model::Opening;
use mg_script::Line;
use mg_trace::Trace;
use std::alloc::Global;

/// The report of sessions that have obeyed the lines of a script at once: where they began, the lines of their history,
/// and what they were answered. `answers` has what each session was answered, A first, the first answer first. Where
/// the trace is not whole, the lines of the history are those of a beginning of it.
///
/// # Errors
///
/// `Memory` only.
pub fn report(
    alloc: Global,
    opening: &Opening,
    trace: &Trace,
    lines: &[Line],
    answers: &[Vec<Answered>],
) -> Result<Vec<u8>, Memory>
    requires { length answers.now ≤ SESSIONS }
    ensures told { IfOk result (λ text. text.items
        ≡ report_with opening.now trace.now.text.items lines.now (answers_in answers.now)) }
    ensures whole { (h : Entries) → Has trace.now h → trace.now.whole ≡ true
        → IfOk result (λ text. text.items ≡ report_text opening.now h lines.now (answers_in answers.now)) }
{
    let mut out = opened(alloc, opening)?;
    put_bytes(&mut out, &trace.text)?;
    put_replies(lines, answers, &mut out)?;
    Ok(out)
}

// The lines of an opening.
fn opened(alloc: Global, opening: &Opening) -> Result<Vec<u8>, Memory>
    ensures { IfOk result (λ text. text.items ≡ opening_text opening.now) }
{
    let mut trace = Trace::new(alloc);
    trace.put_opening(opening);
    let Trace { text, whole } = trace;
    if whole { Ok(text) } else { Err(Memory) }
}

// Appends bytes.
fn put_bytes(out: &mut Vec<u8>, bytes: &[u8]) -> Result<(), Memory>
    ensures { OnOk result (out.new.items ≡ out.old.items ++ bytes.now) }
{
    out.extend_from_slice(bytes)?;
    Ok(())
}
