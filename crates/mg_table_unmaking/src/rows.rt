//! A row of the catalog is taken out in a batch of its own.

ghost use Rattle.std.specs.Prelude.{◌≡◌, ◌≤◌, ◌<◌, ◌↔◌, IsTrue, MatchResult, None, length};
ghost use Rattle.mg_base.specs.Image.{Image};
ghost use Rattle.mg_heap.specs.Reading.{ReadsData};
ghost use Rattle.mg_pool.specs.Fault.{TellsFault};
ghost use Rattle.mg_pool.specs.Pool.{IsPool};
ghost use Rattle.mg_space.specs.Taking.{IsGeometry};
ghost use Rattle.mg_space.specs.View.{AreWhole, KeepsStore, Tells, pool_answer, viewed};
ghost use Rattle.mg_table_unmaking.specs.Rows.{FailsRowOut, IsAlone, IsAloneAt, RefusesAloneAt, RefusesRow, TakesRow, TakesRowOut};

use mg_base::{Disk, GREATEST_LIMIT, RecId, TxNo};
use mg_batches::{change_batch, unlawful};
use mg_chain::{States, back_out};
use mg_model::Table;
use mg_pool::Batch;
use mg_seek::{Placed, Wanted, first_version, speaker};
use mg_snap::Live;
use mg_space::{SpaceFault, Store};
use mg_value::{MOST_COLUMNS, Value};

/// Tells whether a newest version is the transaction's own, with none behind it.
fn is_alone(newest: &Option<Placed>, t: TxNo) -> bool
    ensures { IsTrue result ↔ IsAlone t.0 newest.now }
{
    match newest {
        None => false,
        Some(placed) => placed.version.tx.0 == t.0 && placed.version.back.is_none(),
    }
}

/// The record of a table that speaks for a key, as a batch has the pages, where its one version is the transaction's own.
///
/// # Errors
///
/// As `speaker` and `first_version` of mg_seek; `Damaged` by `unlawful` where no record speaks for the key, or its versions are
/// others, which no lawful engine meets.
fn alone_at<D: Disk, S: States>(
    store: &mut Store<D>,
    batch: &Batch,
    table: &Table,
    key: &Value,
    states: &S,
    live: &Live,
    t: TxNo,
) -> Result<RecId, SpaceFault>
    requires pool { IsPool D.meaning store.old }
    requires geometry { IsGeometry store.old.geometry }
    requires whole { AreWhole store.old.geometry batch.now.pages }
    requires columns { length table.now.shape.columns ≤ MOST_COLUMNS }
    requires pointer { table.now.pointer.0 < GREATEST_LIMIT }

    ensures keeps { KeepsStore D.meaning store.old store.new }
    ensures fault { TellsFault D.meaning store.old store.new (pool_answer result) }
    ensures own { ReadsData result }
    ensures gives { (image : Image) → Tells D.meaning store.old.disk image → MatchResult result
        (IsAloneAt (S.state_of states.now) live.now t.0 (viewed store.old image batch.now) table.now key.now)
        (RefusesAloneAt D.meaning store.new batch.now.pages
        (viewed store.old image batch.now) (S.state_of states.now) live.now t.0 table.now key.now) }
{
    let found = speaker(store, batch, table, key, states, live)?;
    let Some(rec) = found else {
        return Err(SpaceFault::Damaged(unlawful()));
    };
    let newest = first_version(store, batch, rec, states, live, Wanted::Any)?;
    if is_alone(&newest, t) {
        return Ok(rec);
    }
    Err(SpaceFault::Damaged(unlawful()))
}

/// Takes the row of a key out of a table, in a batch.
///
/// # Errors
///
/// As `alone_at`, and as `back_out` of mg_chain. The batch may then have a part of the change: the caller drops it.
fn take_row<D: Disk, S: States>(
    store: &mut Store<D>,
    batch: &mut Batch,
    table: &Table,
    key: &Value,
    states: &S,
    live: &Live,
    t: TxNo,
) -> Result<(), SpaceFault>
    requires pool { IsPool D.meaning store.old }
    requires geometry { IsGeometry store.old.geometry }
    requires whole { AreWhole store.old.geometry batch.old.pages }
    requires columns { length table.now.shape.columns ≤ MOST_COLUMNS }
    requires pointer { table.now.pointer.0 < GREATEST_LIMIT }

    ensures keeps { KeepsStore D.meaning store.old store.new }
    ensures fault { TellsFault D.meaning store.old store.new (pool_answer result) }
    ensures own { ReadsData result }
    ensures whole { AreWhole store.old.geometry batch.new.pages }
    ensures takes { (image : Image) → Tells D.meaning store.old.disk image → MatchResult result
        (λ _. TakesRow store.old image (S.state_of states.now) live.now t.0 table.now key.now batch.old batch.new)
        (RefusesRow D.meaning store.old store.new image (S.state_of states.now) live.now t.0 table.now key.now
        batch.old) }
{
    let rec = alone_at(store, batch, table, key, states, live, t)?;
    back_out(store, batch, rec)
}

/// Takes the row of a key out of a table, in a batch of its own: it is the one version of the record that speaks for the key,
/// and the transaction's own.
///
/// `table` is the catalog.
///
/// # Errors
///
/// As `take_row`, and as `change_batch` of mg_batches.
pub fn take_row_out<D: Disk, S: States>(
    store: &mut Store<D>,
    table: &Table,
    key: &Value,
    states: &S,
    live: &Live,
    t: TxNo,
) -> Result<(), SpaceFault>
    requires pool { IsPool D.meaning store.old }
    requires geometry { IsGeometry store.old.geometry }
    requires columns { length table.now.shape.columns ≤ MOST_COLUMNS }
    requires pointer { table.now.pointer.0 < GREATEST_LIMIT }

    ensures pool { IsPool D.meaning store.new }
    ensures geometry { store.new.geometry ≡ store.old.geometry }
    ensures takes { MatchResult result
        (λ _. TakesRowOut D.meaning store.old store.new (S.state_of states.now) live.now t.0 table.now key.now)
        (FailsRowOut D.meaning store.old store.new (S.state_of states.now) live.now t.0 table.now key.now) }
{
    let mut batch = Batch::new(store.alloc());
    take_row(store, &mut batch, table, key, states, live, t)?;
    change_batch(store, batch)
}
