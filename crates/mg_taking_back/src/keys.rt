//! One key is taken back on the pages.

ghost use Rattle.std.specs.Prelude.{◌≡◌, ◌≤◌, ◌<◌, ◌↔◌, [], IfSome, IsTrue, MatchResult, length, slice_get};
ghost use Rattle.mg_base.specs.Image.{Image};
ghost use Rattle.mg_chain.specs.Refusals.{RefusesChain};
ghost use Rattle.mg_heap.specs.Reading.{ReadsData};
ghost use Rattle.mg_pool.specs.Fault.{TellsFault};
ghost use Rattle.mg_pool.specs.Pool.{IsPool, shown};
ghost use Rattle.mg_records.specs.Writing.{FitsShape, IsOfColumn};
ghost use Rattle.mg_seek.specs.Speaking.{IsSpeaker, RefusesTableRows};
ghost use Rattle.mg_seek.specs.Versions.{IsFirst, wants};
ghost use Rattle.mg_space.specs.Taking.{IsGeometry};
ghost use Rattle.mg_space.specs.View.{KeepsStore, Tells, pool_answer};
ghost use Rattle.mg_value.specs.Rows.{FitsKind};
ghost use Rattle.mg_works.specs.Works.{MayBeGiven};
ghost use Rattle.mg_taking_back.specs.Keys.{FailsKey, FailsPuttingBack, FailsReplacingBy, IsNoChange, IsOwn, IsOwnAt, PutsBack, RefusesOwnAt, ReplacesBy, TakesKey, former as former_of};

use crate::formers::may_come_back;
use mg_base::{Disk, GREATEST_LIMIT, RecId, TxNo};
use mg_batches::unlawful;
use mg_chain::States;
use mg_model::Table;
use mg_pool::{Batch, PoolFault};
use mg_records::Write;
use mg_row_writes::{enter_own, keys_may_be_laid, may_be_stored, stored_version, take_newest_out};
use mg_seek::{Placed, Wanted, first_version, speaker};
use mg_snap::Live;
use mg_space::{SpaceFault, Store};
use mg_undo::Was;
use mg_value::{Key, Kind, MOST_COLUMNS, Shape, Value, row_fits};

/// The record of a table that speaks for a key, as the cache shows the pages.
fn speaker_at<D: Disk, S: States>(
    store: &mut Store<D>,
    table: &Table,
    key: &Value,
    states: &S,
    live: &Live,
) -> Result<Option<RecId>, SpaceFault>
    requires pool { IsPool D.meaning store.old }
    requires geometry { IsGeometry store.old.geometry }
    requires columns { length table.now.shape.columns ≤ MOST_COLUMNS }
    requires pointer { table.now.pointer.0 < GREATEST_LIMIT }

    ensures keeps { KeepsStore D.meaning store.old store.new }
    ensures fault { TellsFault D.meaning store.old store.new (pool_answer result) }
    ensures own { ReadsData result }
    ensures gives { (image : Image) → Tells D.meaning store.old.disk image → MatchResult result
        (IsSpeaker (S.state_of states.now) live.now (shown store.old.dirty image) table.now key.now)
        (RefusesTableRows D.meaning store.new [] (shown store.old.dirty image)
        (wants (S.state_of states.now) live.now Wanted.Living) table.now) }
{
    let batch = Batch::new(store.alloc());
    speaker(store, &batch, table, key, states, live)
}

/// The newest version of a record, as the cache shows the pages.
fn newest_at<D: Disk, S: States>(
    store: &mut Store<D>,
    rec: RecId,
    states: &S,
    live: &Live,
) -> Result<Option<Placed>, SpaceFault>
    requires pool { IsPool D.meaning store.old }
    requires geometry { IsGeometry store.old.geometry }

    ensures keeps { KeepsStore D.meaning store.old store.new }
    ensures fault { TellsFault D.meaning store.old store.new (pool_answer result) }
    ensures own { ReadsData result }
    ensures gives { (image : Image) → Tells D.meaning store.old.disk image → MatchResult result
        (IsFirst (shown store.old.dirty image) (wants (S.state_of states.now) live.now Wanted.Any) rec)
        (RefusesChain D.meaning store.new [] (shown store.old.dirty image) rec) }
{
    let batch = Batch::new(store.alloc());
    first_version(store, &batch, rec, states, live, Wanted::Any)
}

/// Tells whether a newest version is the transaction's own.
fn is_own(newest: &Option<Placed>, t: TxNo) -> bool
    ensures { IsTrue result ↔ IsOwn t.0 newest.now }
{
    match newest {
        None => false,
        Some(placed) => placed.version.tx.0 == t.0,
    }
}

/// The record of a table that speaks for a key, where its newest version is the transaction's own.
///
/// # Errors
///
/// As `speaker` and `first_version` of mg_seek; `Damaged` by `unlawful` where no record speaks for the key, or its
/// newest version is another one's.
fn own_at<D: Disk, S: States>(
    store: &mut Store<D>,
    table: &Table,
    key: &Value,
    states: &S,
    live: &Live,
    t: TxNo,
) -> Result<RecId, SpaceFault>
    requires pool { IsPool D.meaning store.old }
    requires geometry { IsGeometry store.old.geometry }
    requires columns { length table.now.shape.columns ≤ MOST_COLUMNS }
    requires pointer { table.now.pointer.0 < GREATEST_LIMIT }

    ensures keeps { KeepsStore D.meaning store.old store.new }
    ensures fault { TellsFault D.meaning store.old store.new (pool_answer result) }
    ensures own { ReadsData result }
    ensures gives { (image : Image) → Tells D.meaning store.old.disk image → MatchResult result
        (IsOwnAt (S.state_of states.now) live.now t.0 (shown store.old.dirty image) table.now key.now)
        (RefusesOwnAt D.meaning store.new (shown store.old.dirty image)
        (S.state_of states.now) live.now t.0 table.now key.now) }
{
    let found = speaker_at(store, table, key, states, live)?;
    let Some(rec) = found else {
        return Err(SpaceFault::Damaged(unlawful()));
    };
    let newest = newest_at(store, rec, states, live)?;
    if is_own(&newest, t) {
        return Ok(rec);
    }
    Err(SpaceFault::Damaged(unlawful()))
}

/// Tells whether a value may stand in a column of a kind.
fn takes(kind: Kind, value: &Value) -> bool
    ensures { IsTrue result ↔ FitsKind kind value.now }
{
    match value {
        Value::Null => true,
        Value::Int(_) => match kind {
            Kind::Int => true,
            Kind::Text(_) => false,
        },
        Value::Text(text) => match kind {
            Kind::Int => false,
            Kind::Text(most) => text.as_slice().len() <= most as usize,
        },
    }
}

/// Tells whether a key is of the kind of its column in a shape.
fn is_of_column(shape: &Shape, key: &Value) -> bool
    ensures { IsTrue result ↔ IsOfColumn (slice_get shape.now.columns shape.now.key) key.now }
{
    match shape.columns.as_slice().get(usize::from(shape.key)) {
        None => false,
        Some(column) => takes(column.kind, key),
    }
}

/// Tells whether what comes back fits a shape: a new row, or a deletion.
fn fits(shape: &Shape, write: &Write) -> bool
    requires { IsNoChange write.now }
    ensures { IsTrue result ↔ FitsShape shape.now write.now }
{
    match write {
        Write::Insert(row) => row_fits(shape, row),
        Write::Erase(key) => is_of_column(shape, key.value()),
        Write::Change(_, _) => unreachable!(),
    }
}

/// The write by which what was comes back, None where the transaction had not changed the key.
fn former(key: Key, was: Was) -> Option<Write>
    ensures former { result ≡ former_of key was }
    ensures kind { IfSome result IsNoChange }
{
    match was {
        Was::Untouched => None,
        Was::Deleted => Some(Write::Erase(key)),
        Was::Row(row) => Some(Write::Insert(row)),
    }
}

/// Puts the version of a write in place of the transaction's own newest one of a record, after the entries of its row:
/// those that it had may be gone since.
///
/// # Errors
///
/// `Memory`; `Damaged` by `unlawful` where the row does not fit the table or a page, or a key of it an index, which no
/// lawful engine meets; as `enter_own`. Entries that were laid stay.
fn replace_by<D: Disk>(
    store: &mut Store<D>,
    table: &Table,
    t: TxNo,
    rec: RecId,
    write: &Write,
) -> Result<(), SpaceFault>
    requires pool { IsPool D.meaning store.old }
    requires geometry { IsGeometry store.old.geometry }
    requires kind { IsNoChange write.now }

    ensures pool { IsPool D.meaning store.new }
    ensures geometry { store.new.geometry ≡ store.old.geometry }
    ensures replaces { MatchResult result (λ _. ReplacesBy D.meaning store.old store.new t.0 table.now rec write.now)
        (FailsReplacingBy D.meaning store.old store.new t.0 table.now rec write.now) }
{
    if !fits(&table.shape, write) {
        return Err(SpaceFault::Damaged(unlawful()));
    }
    let version = match stored_version(store.alloc(), table, t, write) {
        Ok(version) => version,
        Err(_) => return Err(SpaceFault::Pool(PoolFault::Memory)),
    };
    let size = store.geometry().size;
    if !may_be_stored(size, table.pointer, &version) {
        return Err(SpaceFault::Damaged(unlawful()));
    }
    let short = match keys_may_be_laid(store.alloc(), size, table, write) {
        Ok(short) => short,
        Err(_) => return Err(SpaceFault::Pool(PoolFault::Memory)),
    };
    if !short {
        return Err(SpaceFault::Damaged(unlawful()));
    }
    enter_own(store, table, rec, write, &version)
}

/// Takes the transaction's own newest version of a record out, or puts that of a write in its place.
///
/// # Errors
///
/// As `take_newest_out`, and as `replace_by`.
fn put_back<D: Disk>(
    store: &mut Store<D>,
    table: &Table,
    t: TxNo,
    rec: RecId,
    write: Option<Write>,
) -> Result<(), SpaceFault>
    requires pool { IsPool D.meaning store.old }
    requires geometry { IsGeometry store.old.geometry }
    requires kind { IfSome write IsNoChange }

    ensures pool { IsPool D.meaning store.new }
    ensures geometry { store.new.geometry ≡ store.old.geometry }
    ensures puts { MatchResult result (λ _. PutsBack D.meaning store.old store.new t.0 table.now rec write)
        (FailsPuttingBack D.meaning store.old store.new t.0 table.now rec write) }
{
    match write {
        None => take_newest_out(store, rec),
        Some(write) => replace_by(store, table, t, rec, &write),
    }
}

/// Takes a key of a table back.
///
/// # Errors
///
/// `Damaged` by `unlawful` where what was may not come back, which no lawful engine meets; as `own_at`, and as `put_back`.
pub fn take_in<D: Disk, S: States>(
    store: &mut Store<D>,
    table: &Table,
    states: &S,
    live: &Live,
    t: TxNo,
    key: Key,
    was: Was,
) -> Result<(), SpaceFault>
    requires pool { IsPool D.meaning store.old }
    requires geometry { IsGeometry store.old.geometry }
    requires table { MayBeGiven table.now }

    ensures pool { IsPool D.meaning store.new }
    ensures geometry { store.new.geometry ≡ store.old.geometry }
    ensures takes { MatchResult result
        (λ _. TakesKey D.meaning store.old store.new (S.state_of states.now) live.now t.0 table.now key was)
        (FailsKey D.meaning store.old store.new (S.state_of states.now) live.now t.0 table.now key was) }
{
    if !may_come_back(&table.shape, key.value(), &was) {
        return Err(SpaceFault::Damaged(unlawful()));
    }
    let rec = own_at(store, table, key.value(), states, live, t)?;
    put_back(store, table, t, rec, former(key, was))
}
