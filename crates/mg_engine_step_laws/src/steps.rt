//! From a batch that was changed over the cache to the engine's invariant: which history an engine stands
//! for, and its cache lasts with, once a call has written.
//!
//! Owns: three kinds of law, none of which names a call's program.
//!
//! - What is read afterwards (`ReadsAfter`): a record was pushed over, made, replaced in its cell, moved or
//!   taken out on the pages; the tables stand as they stood but for pages that one has got, the record has
//!   these versions, all others have theirs, and the bits of all transactions stay (`specs/GoesOn`).
//! - The engine (`WritesStand`): where memory follows the entry and a version was written so, it stands for
//!   the longer history. What stays behind the version is told by cases (`StaysBehind`).
//! - The cache (`RowsLast`, `BatchesLast`): where every overlay is kept for the longer history, the cache
//!   lasts with it, and crashes since then leave what they left.
//!
//! `WritesGoOn` has the last two as one law. The files `Batches`, `Writes` and `GoesOn` of `specs/` have what
//! counts, and the others prove it. There is no program here: each function does nothing, and its contract is
//! a law.

ghost use Rattle.mg_image.specs.Form.{packed_form};
ghost use Rattle.mg_engine_step_laws.specs.writes.Batches.{BatchesLast, PoolBitsAre, ReadsLast, RowsLast, RowsLastStill};
ghost use Rattle.mg_engine_step_laws.specs.writes.GoesOn.{FirstsAreRead, MovesAreRead, PoolIsKept, PushesAreRead};
ghost use Rattle.mg_engine_step_laws.specs.writes.GoesOn.{ReplacementsAreRead, TakingOutIsRead, WritesGoOn};
ghost use Rattle.mg_engine_step_laws.specs.writes.Writes.{WritesShow, WritesStand};

use crate::standings_go_on;
use mg_base::Disk;
use mg_careful::Links;
use mg_image::one_reading;
use mg_model::histories_go_on;

/// What is read of the pages after a record was written, and what becomes of the bits there.
pub fn records_are_read()
    ensures pushes { PushesAreRead packed_form }
    ensures firsts { FirstsAreRead packed_form }
    ensures replacements { ReplacementsAreRead packed_form }
    ensures moves { MovesAreRead packed_form }
    ensures out { TakingOutIsRead packed_form }
{
    one_reading();
}

/// Pages on which a record was written show the longer history, and the engine stands for it.
pub fn writes_stand()
    ensures pages { WritesShow packed_form }
    ensures engine { WritesStand packed_form }
{
    histories_go_on();
    standings_go_on();
}

/// A cache lasts with its history while it is read, and with a later one after a batch.
pub fn batches_last<D: Disk, L: Links>()
    ensures bits { PoolBitsAre packed_form }
    ensures pool { PoolIsKept packed_form D L }
    ensures reads { ReadsLast D L D.meaning packed_form }
    ensures batches { BatchesLast D L D.meaning packed_form }
    ensures rows { RowsLast D L D.meaning packed_form }
    ensures still { RowsLastStill D L D.meaning packed_form }
{}

/// A write of a record takes an engine to the history with the entry.
pub fn writes_go_on<D: Disk, L: Links>()
    ensures { WritesGoOn D L D.meaning packed_form }
{
    histories_go_on();
    writes_stand();
}
