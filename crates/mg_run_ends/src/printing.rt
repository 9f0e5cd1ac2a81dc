//! The line behind all others, which says why a run has ended.

ghost use Rattle.std.specs.Prelude.{◌≡◌, true};
ghost use Rattle.mg_run_ends.specs.Ends.{has_fixed_line as has_fixed_line_of};
ghost use Rattle.mg_run_ends.specs.Printing.{IsPrinted};
ghost use Rattle.mg_run_ends.specs.declared.ending.RunEnd.TheVariants.{Outside};
ghost use Rattle.mg_script.specs.Texts.{outside_text};
ghost use Rattle.mg_run_ends.specs.Saying.{SaysEnd};

use crate::ending::RunEnd;
use mg_base::Sink;
use mg_model::Refusal;
use mg_script::refusal_line;
use std::alloc::Global;

/// Puts the line of an end into the sink, if it has one, and tells how the run ends: where memory is short for the line,
/// by that. A sink that fails at this line leaves the end as it is.
pub fn say_end<K: Sink>(alloc: Global, end: RunEnd, sink: &mut K) -> RunEnd
    ensures { SaysEnd K.meaning sink.old sink.new end result }
{
    match end {
        RunEnd::Outside(refusal) => say_refusal(alloc, refusal, sink),
        RunEnd::ScriptTooLong => {
            put_line(b"mgdb: SCRIPT TOO LONG\n", sink);
            end
        }
        RunEnd::Whole { .. } | RunEnd::InLine(_) | RunEnd::Stream => end,
    }
}

// Puts the line of a refusal into the sink. Memory is taken only for a line with numbers: that the disk failed, or that
// memory is short, can always be told.
fn say_refusal<K: Sink>(alloc: Global, refusal: Refusal, sink: &mut K) -> RunEnd
    ensures { SaysEnd K.meaning sink.old sink.new (Outside refusal) result }
{
    if has_fixed_line(refusal) {
        put_line(fixed_line(refusal), sink);
        return RunEnd::Outside(refusal);
    }
    let mut text = Vec::new(alloc);
    match refusal_line(refusal, &mut text) {
        Ok(()) => {
            put_line(text.as_slice(), sink);
            RunEnd::Outside(refusal)
        }
        Err(_) => {
            put_line(fixed_line(Refusal::Memory), sink);
            RunEnd::Outside(Refusal::Memory)
        }
    }
}

/// Whether a refusal has a line without numbers.
pub fn has_fixed_line(refusal: Refusal) -> bool
    ensures { result ≡ has_fixed_line_of refusal }
{
    match refusal {
        Refusal::DiskRead { .. }
        | Refusal::DiskWrite { .. }
        | Refusal::Offline { .. }
        | Refusal::Memory => true,
        _ => false,
    }
}

/// The line of such a refusal, which takes no memory.
pub fn fixed_line(refusal: Refusal) -> &'static [u8]
    requires { has_fixed_line_of refusal ≡ true }
    ensures { result.now ≡ outside_text refusal }
{
    match refusal {
        Refusal::DiskRead { .. } => b"mgdb: DISK READ FAULT\n",
        Refusal::DiskWrite { .. } => b"mgdb: DISK WRITE FAULT\n",
        Refusal::Offline { .. } => b"mgdb: OFFLINE\n",
        _ => b"mgdb: OUT OF MEMORY\n",
    }
}

/// Puts a line into the sink.
pub fn put_line<K: Sink>(line: &[u8], sink: &mut K)
    ensures { IsPrinted K.meaning sink.old sink.new line.now }
{
    let _ = sink.put(line);
}
