//! Which tables stand on the pages of an engine that stands for a history, and that each active transaction finds
//! its own there.
//!
//! Owns: the law on names under which the history tells a table (`NamedTablesStand`), for changes that have at each
//! key of the catalog the newest version that is committed, or of one that is chosen among those that have not
//! ended. Each has its table among those of the layout, but for indexes, with the shape that is told. Its uses are
//! the database (`DatabaseTablesStand`), a view whose base sees all that are committed (`SeenTablesStand`), and a
//! transaction's own changes laid over the database, which it would see with a new base
//! (`NewlySeenTablesStand`). So there are tables for one that begins or looks (`TablesFor`), and with these each
//! active transaction finds its tables afterwards; so it does after idle entries, and after the commit of another
//! (`BeginFinds`, `LookFinds`, `IdleFinds`, `CommitFinds`).
//!
//! All stands in `specs/`. There is no program here: each function does nothing, and its contract is a law.

ghost use Rattle.mg_engine_step_laws.specs.tables.Finding.{BeginFinds, BeginHasTables, CommitFinds, IdleFinds, LookFinds, LookHasTables};
ghost use Rattle.mg_engine_step_laws.specs.tables.NamedTables.{NamedTablesStand};
ghost use Rattle.mg_engine_step_laws.specs.tables.SeenTables.{DatabaseTablesStand, NewlySeenTablesStand, SeenTablesStand};

use crate::{chains_go_on, memory_follows};
use mg_generation_laws::chains_tell;
use mg_image_overlay_laws::sound_images_stand_one_way;

/// The tables that rows of the catalog name which the pages tell stand there: those of the database, those that a
/// transaction sees which has just taken its base, and those that it would see with a new one.
pub fn named_tables_stand()
    ensures named { NamedTablesStand }
    ensures database { DatabaseTablesStand }
    ensures seen { SeenTablesStand }
    ensures newly { NewlySeenTablesStand }
{
    chains_tell();
    chains_go_on();
}

/// There are tables to be seen by a transaction that takes a new base.
pub fn bases_have_tables()
    ensures begin { BeginHasTables }
    ensures look { LookHasTables }
{
    named_tables_stand();
}

/// Each active transaction finds its tables after a begin, after a statement has begun, after an idle entry, and
/// after a commit.
pub fn tables_are_found()
    ensures begin { BeginFinds }
    ensures look { LookFinds }
    ensures idle { IdleFinds }
    ensures commit { CommitFinds }
{
    sound_images_stand_one_way();
    memory_follows();
}
