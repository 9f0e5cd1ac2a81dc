//! Calls on pages that add no entry, as laws on an engine that stands for a history.
//!
//! Owns: a commit is asked for (`AsksGoOn`); a page is written for it, or its page write fails (`StepsGoOn`);
//! pages are read (`ReadsGoOn`). Each goes from what the call of the core says to what a keeper of records owes:
//! no entry is added, the engine stands for what it stood for, what is another transaction's goes on as it was,
//! and each crash leaves the history.
//!
//! `specs/Steps` has what counts, the other files prove it. There is no program here: each function does
//! nothing, and its contract is a law.

ghost use Rattle.mg_engine_meaning_laws.specs.Steps.{AsksGoOn, ReadsGoOn, StepsGoOn};

use mg_base::Disk;
use mg_engine_step_laws::{batches_last, page_writes_go_on};
use mg_model::histories_go_on;
use mg_space::FireLinks;

/// A commit is asked for, and a page is written for it.
pub fn steps_go_on<D: Disk, P>()
    ensures asks { AsksGoOn D P D.meaning }
    ensures steps { StepsGoOn D P D.meaning }
{
    page_writes_go_on::<D, FireLinks>();
}

/// Pages are read.
pub fn reads_go_on<D: Disk, P>()
    ensures { ReadsGoOn D P D.meaning }
{
    batches_last::<D, FireLinks>();
    histories_go_on();
}
