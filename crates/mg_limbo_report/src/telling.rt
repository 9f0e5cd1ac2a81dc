//! The command.

ghost use Rattle.std.specs.Prelude.{◌≡◌, Some, nat_lt};
ghost use Rattle.mg_base.specs.Asking.{AsksReads};
ghost use Rattle.mg_base.specs.Image.{Image};
ghost use Rattle.mg_base.specs.declared.geometry.TheConstants.{GREATEST_LIMIT};
ghost use Rattle.mg_limbo_list.specs.Limbo.{AscendFrom};
ghost use Rattle.mg_pool.specs.Pool.{KeepsContent};
ghost use Rattle.mg_limbo_report.specs.Report.{EndsWith, IsCareRefusal, IsCause, IsToldOf, SaysList, SaysRefusal, Tells};

use crate::ending::LookEnd;
use crate::listing::list_disk;
use crate::text::{fixed_line, is_fixed, put_list, put_refused};
use mg_base::{Disk, Sink, TxNo};
use mg_model::Refusal;
use mg_run_ends::put_line;
use std::alloc::Global;

/// Puts the line of a refusal into the sink, and tells how the command ends: where memory is short for the line, by that.
/// A sink that fails at this line leaves the end as it is.
fn say_refusal<K: Sink>(alloc: Global, refusal: Refusal, sink: &mut K) -> LookEnd
    ensures { SaysRefusal K.meaning sink.old sink.new refusal result }
{
    if is_fixed(refusal) {
        put_line(fixed_line(refusal), sink);
        return LookEnd::Refused(refusal);
    }
    let mut text = Vec::new(alloc);
    match put_refused(&mut text, refusal) {
        Ok(()) => {
            put_line(text.as_slice(), sink);
            LookEnd::Refused(refusal)
        }
        Err(_) => {
            put_line(fixed_line(Refusal::Memory), sink);
            LookEnd::Refused(Refusal::Memory)
        }
    }
}

/// Puts the lines of the list into the sink, in one piece.
fn say_list<K: Sink>(alloc: Global, list: &[TxNo], sink: &mut K) -> LookEnd
    ensures { SaysList K.meaning sink.old sink.new list.now result }
{
    let mut text = Vec::new(alloc);
    match put_list(&mut text, list) {
        Ok(()) => {}
        Err(_) => {
            put_line(fixed_line(Refusal::Memory), sink);
            return LookEnd::Refused(Refusal::Memory);
        }
    }
    match sink.put(text.as_slice()) {
        Ok(()) => LookEnd::Told,
        Err(_) => LookEnd::Stream,
    }
}

/// Prints the transactions in limbo of a disk, a line `LIMBO n` for each, ascending; or, where its header or its
/// transaction inventory has a finding, the least of them as a refusal, behind `gfix: `; or that the disk failed, or that
/// memory is short. Nothing is written to the disk.
pub fn tell_limbo<D: Disk, K: Sink>(alloc: Global, disk: &mut D, sink: &mut K) -> LookEnd
    ensures content { KeepsContent D.meaning disk.old disk.new }
    ensures reads { AsksReads D.meaning disk.old disk.new GREATEST_LIMIT (λ n. nat_lt n GREATEST_LIMIT) }
    ensures fault { EndsWith D.meaning disk.old disk.new result }
    ensures printed { Tells (AscendFrom 0) IsCareRefusal K.meaning sink.old sink.new result }
    ensures told { (image : Image) → D.meaning.held disk.old ≡ Some image
        → Tells (IsToldOf D.meaning disk.new image) (IsCause D.meaning disk.new image) K.meaning sink.old
        sink.new result }
{
    match list_disk(alloc, disk) {
        Ok(list) => say_list(alloc, list.as_slice(), sink),
        Err(refusal) => say_refusal(alloc, refusal, sink),
    }
}
