//! Page writes, and runs of them with batches.

ghost use Rattle.mg_image.specs.Form.{packed_form};
ghost use Rattle.mg_demand_laws.specs.Known.{PartsAreSteps, TableIsKnown};
ghost use Rattle.mg_demand_laws.specs.OpenedRuns.{OpenedStaysLinked};
ghost use Rattle.mg_demand_laws.specs.TableRuns.{RunsStayLinked, WritesKeepTables};

use crate::{
    all_is_borne, demands_are_borne, pointer_pages_stay_orderly, rows_bear, runs_bear,
    sound_images_are_linked, tables_bear,
};
use mg_base::Disk;
use mg_space::FireLinks;

/// Page writes of a pool keep the invariant of tables, whatever lasts then: what did before, or what is wanted of clean
/// pages, too.
pub fn writes_keep_tables<D: Disk>()
    ensures { WritesKeepTables D FireLinks D.meaning }
{
    all_is_borne::<FireLinks>();
    runs_bear()
}

/// Page writes and batches that pay, in any sequence: the invariant holds behind them, with every root, and each image
/// that a crash may leave is linked from these.
pub fn runs_stay_linked<D: Disk>()
    ensures { RunsStayLinked D FireLinks D.meaning }
{
    writes_keep_tables::<D>();
    tables_bear::<D>();
    rows_bear::<D>();
    demands_are_borne::<FireLinks>()
}

/// What is known of a table by the things that are known to be wanted: so a batch whose parts pay is a step of a run.
pub fn parts_are_steps<D: Disk>()
    ensures known { TableIsKnown D FireLinks }
    ensures steps { PartsAreSteps D FireLinks }
{}

/// Over a sound image that is opened, whatever page writes and batches that pay have followed: each image that a crash
/// may leave is linked from the roots that it had.
pub fn opened_runs_stay_linked<D: Disk>()
    ensures { OpenedStaysLinked D FireLinks D.meaning packed_form }
{
    sound_images_are_linked();
    pointer_pages_stay_orderly();
    runs_stay_linked::<D>()
}
