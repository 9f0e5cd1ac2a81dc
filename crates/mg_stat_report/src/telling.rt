//! The command.

ghost use Rattle.std.specs.Prelude.{◌≡◌, Some, nat_lt};
ghost use Rattle.mg_base.specs.Asking.{AsksReads};
ghost use Rattle.mg_base.specs.Image.{Image};
ghost use Rattle.mg_base.specs.declared.geometry.TheConstants.{GREATEST_LIMIT};
ghost use Rattle.mg_limbo_report.specs.Report.{EndsWith, IsCareRefusal};
ghost use Rattle.mg_pool.specs.Pool.{KeepsContent};
ghost use Rattle.mg_stat_report.specs.Telling.{AreSomeFigures, IsCause, IsToldOf, SaysFigures, SaysRefusal, Tells};

use crate::looking::look_at;
use crate::text::put_stat;
use mg_base::{Disk, Sink};
use mg_file_figures::FileFigures;
use mg_limbo_report::LookEnd;
use mg_model::Refusal;
use mg_run_ends::{fixed_line, has_fixed_line, put_line};
use mg_script::refusal_line;
use std::alloc::Global;

/// Puts the line of a refusal into the sink, and tells how the command ends: where memory is short for the line, by that.
/// A sink that fails at this line leaves the end as it is.
fn say_refusal<K: Sink>(alloc: Global, refusal: Refusal, sink: &mut K) -> LookEnd
    ensures { SaysRefusal K.meaning sink.old sink.new refusal result }
{
    if has_fixed_line(refusal) {
        put_line(fixed_line(refusal), sink);
        return LookEnd::Refused(refusal);
    }
    let mut text = Vec::new(alloc);
    match refusal_line(refusal, &mut text) {
        Ok(()) => {
            put_line(text.as_slice(), sink);
            LookEnd::Refused(refusal)
        }
        Err(_) => {
            put_line(fixed_line(Refusal::Memory), sink);
            LookEnd::Refused(Refusal::Memory)
        }
    }
}

/// Puts the lines of the figures into the sink, in one piece.
fn say_figures<K: Sink>(alloc: Global, it: &FileFigures, sink: &mut K) -> LookEnd
    ensures { SaysFigures K.meaning sink.old sink.new it.now result }
{
    let mut text = Vec::new(alloc);
    match put_stat(&mut text, it) {
        Ok(()) => {}
        Err(_) => {
            put_line(fixed_line(Refusal::Memory), sink);
            return LookEnd::Refused(Refusal::Memory);
        }
    }
    match sink.put(text.as_slice()) {
        Ok(()) => LookEnd::Told,
        Err(_) => LookEnd::Stream,
    }
}

/// Prints the figures of a disk; or, where something is found in it, the first of that as a refusal, behind `mgdb: `; or
/// that the disk failed, or that memory is short. Nothing is written to the disk.
pub fn tell_stat<D: Disk, K: Sink>(alloc: Global, disk: &mut D, sink: &mut K) -> LookEnd
    ensures content { KeepsContent D.meaning disk.old disk.new }
    ensures reads { AsksReads D.meaning disk.old disk.new GREATEST_LIMIT (λ n. nat_lt n GREATEST_LIMIT) }
    ensures fault { EndsWith D.meaning disk.old disk.new result }
    ensures printed { Tells AreSomeFigures IsCareRefusal K.meaning sink.old sink.new result }
    ensures told { (image : Image) → D.meaning.held disk.old ≡ Some image
        → Tells (IsToldOf D.meaning disk.new image) (IsCause D.meaning disk.new image) K.meaning sink.old
        sink.new result }
{
    match look_at(alloc, disk) {
        Ok(it) => say_figures(alloc, &it, sink),
        Err(refusal) => say_refusal(alloc, refusal, sink),
    }
}
