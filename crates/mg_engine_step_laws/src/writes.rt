//! Writes of records take an engine on: from a call of version chains to an engine that stands for the history
//! with the entry.
//!
//! Owns: one law for each call that writes a version, from what the engine knows once the call has filled a
//! batch of its own and the cache has changed it: a version pushed over a committed one (`PushesGoOn`), the
//! first one of a record (`FirstsGoOn`), and one that takes the place of the transaction's own
//! (`ReplacementsGoOn`); a deletion is a version like others. A place that is given for a record leaves the
//! engine with the same history (`SpotsStay`), and so does a dead transaction's version that is taken out
//! (`DeadsGo`). Which of these a record wants in whose way nobody is, `RecordsAreFree` tells.
//!
//! A transaction that has asked for its commit, and then writes on, is first taken for one that has not
//! (`UnaskingLasts`): the laws on a write ask for that.
//!
//! What is known stands in `specs/Knowing`: the batch (`WasChanged`), the entry, which memory follows
//! (`EntersWrite`), the table (`MayWriteInto`), the row (`CodesRow`). The laws on overlays ask for this under
//! each choice of transactions that count; that it follows from the one in which all do is `Choices` and
//! `WriteKnown`.

ghost use Rattle.mg_engine_step_laws.specs.writes.Free.{RecordsAreFree};
ghost use Rattle.mg_engine_step_laws.specs.writes.Rows.{DeadsGo, FirstsGoOn, PushesGoOn, ReplacementsGoOn, SpotsStay};
ghost use Rattle.mg_engine_step_laws.specs.commits.Unasked.{UnaskingLasts};
ghost use Rattle.mg_image.specs.Form.{packed_form};

use crate::{batches_last, writes_go_on};
use mg_base::Disk;
use mg_careful::Links;
use mg_image::one_reading;
use mg_model::histories_go_on;
use mg_seek::records_are_those_of_every_reading;

/// A version that is pushed takes an engine to the history with the entry.
pub fn pushes_go_on<D: Disk, L: Links>()
    ensures { PushesGoOn packed_form D L D.meaning }
{
    one_reading();
    histories_go_on();
    writes_go_on::<D, L>();
}

/// A record's first version takes an engine to the history with the entry.
pub fn firsts_go_on<D: Disk, L: Links>()
    ensures { FirstsGoOn packed_form D L D.meaning }
{
    one_reading();
    histories_go_on();
    writes_go_on::<D, L>();
}

/// An own version that is replaced takes an engine to the history with the entry.
pub fn replacements_go_on<D: Disk, L: Links>()
    ensures { ReplacementsGoOn packed_form D L D.meaning }
{
    one_reading();
    histories_go_on();
    writes_go_on::<D, L>();
}

/// A place that is given leaves an engine with its history.
pub fn spots_stay<D: Disk, L: Links>()
    ensures { SpotsStay packed_form D L D.meaning }
{
    one_reading();
    histories_go_on();
    batches_last::<D, L>();
}

/// A dead transaction's version that is taken out leaves an engine with its history.
pub fn deads_go<D: Disk, L: Links>()
    ensures { DeadsGo packed_form D L D.meaning }
{
    one_reading();
    histories_go_on();
    batches_last::<D, L>();
}

/// Where nobody is in the way, a record's newest version may be pushed over, replaced, or goes first.
pub fn records_are_free()
    ensures { RecordsAreFree }
{
    records_are_those_of_every_reading();
}

/// A transaction that has asked for its commit, and writes on, counts as one that has not.
pub fn unasking_lasts<D: Disk, L: Links>()
    ensures { UnaskingLasts packed_form D L D.meaning }
{}
