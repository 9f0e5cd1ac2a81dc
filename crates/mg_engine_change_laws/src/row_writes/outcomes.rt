//! A row is written into a table that is kept first. Each function does nothing: its contract is the laws.

ghost use Rattle.mg_engine_change_laws.specs.rows.Steps.{NotLaidGives, NotedFailsApart, NotedFailsGive, NotedWritesApart, NotedWritesGive};

use crate::{first_batches_stay, made_rows_give, noted_tables_are_quiet, refusals_go_on};
use mg_base::Disk;
use mg_engine_step_laws::{
    batches_last, entries_go_on, page_writes_go_on, standings_go_on, unasking_lasts,
};
use mg_lasting_laws::crashes_hold;
use mg_model::histories_go_on;
use mg_space::FireLinks;
use mg_undo::a_retracted_change_was_not_kept;

/// A version that is not laid.
pub fn not_laid_give<D: Disk, P>()
    ensures { NotLaidGives D P D.meaning }
{
    a_retracted_change_was_not_kept();
    first_batches_stay::<D, P>();
    unasking_lasts::<D, FireLinks>();
    entries_go_on::<D, FireLinks>();
    standings_go_on();
    crashes_hold();
    histories_go_on();
    batches_last::<D, FireLinks>();
    page_writes_go_on::<D, FireLinks>();
}

/// A write of a row gives its event, made or refused.
pub fn noted_writes_give<D: Disk, P>()
    ensures writes { NotedWritesGive D P D.meaning }
    ensures fails { NotedFailsGive D P D.meaning }
{
    noted_tables_are_quiet::<D>();
    made_rows_give::<D, P>();
    entries_go_on::<D, FireLinks>();
    standings_go_on();
    crashes_hold();
    refusals_go_on::<D, P>();
    not_laid_give::<D, P>();
}

/// Each session has one active transaction at most after a write, too.
pub fn noted_writes_keep_apart<D: Disk, P>()
    ensures writes { NotedWritesApart D D.meaning }
    ensures fails { NotedFailsApart D P D.meaning }
{
    noted_tables_are_quiet::<D>();
    refusals_go_on::<D, P>();
    not_laid_give::<D, P>();
}
