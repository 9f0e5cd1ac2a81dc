//! The keys of a table are noted before one of its rows is asked for by its key, or written: so it is found
//! without a look at each record of the table.

ghost use Rattle.std.specs.Prelude.{MatchResult};
ghost use Rattle.mg_core.specs.Cores.{IsCore};
ghost use Rattle.mg_core.specs.Noting.{WhyNotMade};
ghost use Rattle.mg_engine.specs.Noting.{FailsNoting, NotesKeys};
ghost use Rattle.mg_engine_change_laws.specs.rows.Unread.{LeavesUnread};
ghost use Rattle.mg_works.specs.Works.{MayBeGiven};

use mg_base::{Disk, TxNo};
use mg_core::Core;
use mg_model::{Refusal, Table};

/// Makes the directory of a table for an active transaction, if it has none. Where the transaction isn't active, or a
/// page write has failed, nothing happens, and the call that wants the directory tells it.
///
/// # Errors
///
/// As `make_directory` of mg_core: what the reading is refused for, but not `Memory`.
pub(crate) fn note_keys<D: Disk>(core: &mut Core<D>, t: TxNo, table: &Table) -> Result<(), Refusal>
    requires core { IsCore D.meaning core.old }
    requires given { MayBeGiven table.now }
    ensures core { IsCore D.meaning core.new }
    ensures notes { MatchResult result (λ _. NotesKeys D.meaning core.old core.new t.0 table.now)
        (FailsNoting D.meaning core.old core.new t.0 table.now) }
{
    match core.begin_call(t) {
        Ok(()) => core.make_directory(table),
        Err(_) => Ok(()),
    }
}

/// The same for a write. A refusal is that of the write's event, and ends the wait of its transaction.
///
/// # Errors
///
/// As `note_keys`.
pub(crate) fn note_keys_first<D: Disk>(
    core: &mut Core<D>,
    t: TxNo,
    table: &Table,
) -> Result<(), Refusal>
    requires core { IsCore D.meaning core.old }
    requires given { MayBeGiven table.now }
    ensures core { IsCore D.meaning core.new }
    ensures notes { MatchResult result (λ _. NotesKeys D.meaning core.old core.new t.0 table.now)
        (LeavesUnread D.meaning core.old core.new t.0 (WhyNotMade D.meaning core.old table.now)) }
{
    match note_keys(core, t, table) {
        Ok(()) => Ok(()),
        Err(refusal) => {
            let _begun = core.begin_event(t);
            Err(refusal)
        }
    }
}
