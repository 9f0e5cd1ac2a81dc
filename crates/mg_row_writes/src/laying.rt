//! A version comes into the record of its key, after the entries of its row.

ghost use Rattle.std.specs.Prelude.{◌≡◌, ◌≢◌, ◌+◌, ◌≤◌, ◌<◌, MatchResult, false, length};
ghost use Rattle.mg_pool.specs.Pool.{IsPool};
ghost use Rattle.mg_space.specs.Taking.{IsGeometry};
ghost use Rattle.mg_row_writes.specs.Laying.{EntersFirst, EntersOver, EntersOwn, FailsEnterFirst, FailsEnterOver, FailsEnterOwn, FailsLay, FailsNew, FailsOverDead, KeysMayBeLaid, LaysIn, LaysOverDead, told_of};

use crate::before::Way;
use crate::changing::{make_first, push_over, replace_newest, take_newest_out, take_place};
use crate::entering::enter_row;
use mg_base::{Disk, GREATEST_LIMIT, RecId};
use mg_model::Table;
use mg_records::Write;
use mg_space::{SpaceFault, Store};
use mg_version::Version;

/// Lays the entries of a write's row and then brings its version into the record of its key, on its way, and tells the
/// record.
///
/// The entries come first: a row that is there has its entries, whenever it is looked for. An entry without a row does
/// no harm, since who comes by it to a record asks the record.
///
/// # Errors
///
/// As the batches on that way. A place that was taken stays, and holds nothing; a dead transaction's version that
/// was taken out is gone; entries that were laid stay.
pub fn lay<D: Disk>(
    store: &mut Store<D>,
    table: &Table,
    way: Way,
    write: &Write,
    v: &Version,
) -> Result<RecId, SpaceFault>
    requires pool { IsPool D.meaning store.old }
    requires geometry { IsGeometry store.old.geometry }
    requires owner { table.now.pointer.0 < GREATEST_LIMIT }
    requires some { table.now.pointer.0 ≢ 0 }
    requires short { KeysMayBeLaid store.old.geometry.size table.now write.now }
    requires apart { v.now.primary ≡ false }
    requires stored { 1 ≤ v.now.format }
    requires length { length v.now.body + 42 ≤ store.old.geometry.size }

    ensures pool { IsPool D.meaning store.new }
    ensures geometry { store.new.geometry ≡ store.old.geometry }
    ensures lays { MatchResult result (LaysIn D.meaning store.old store.new table.now way write.now v.now)
        (FailsLay D.meaning store.old store.new table.now way write.now v.now) }
{
    match way {
        Way::Make => lay_new(store, table, write, v),
        Way::Push(rec) => in_record(rec, enter_over(store, table, rec, write, v)),
        Way::PushOverDead(rec) => in_record(rec, lay_over_dead(store, table, rec, write, v)),
        Way::Replace(rec) => in_record(rec, enter_own(store, table, rec, write, v)),
    }
}

/// The record, where what was to be done in it is done.
///
/// # Errors
///
/// What has kept it from being done.
fn in_record(rec: RecId, done: Result<(), SpaceFault>) -> Result<RecId, SpaceFault>
    ensures { result ≡ told_of rec done }
{
    match done {
        Ok(()) => Ok(rec),
        Err(fault) => Err(fault),
    }
}

/// Makes a record: takes a place, lays the entries that name it, and puts its first version there.
fn lay_new<D: Disk>(
    store: &mut Store<D>,
    table: &Table,
    write: &Write,
    v: &Version,
) -> Result<RecId, SpaceFault>
    requires pool { IsPool D.meaning store.old }
    requires geometry { IsGeometry store.old.geometry }
    requires owner { table.now.pointer.0 < GREATEST_LIMIT }
    requires some { table.now.pointer.0 ≢ 0 }
    requires short { KeysMayBeLaid store.old.geometry.size table.now write.now }
    requires apart { v.now.primary ≡ false }
    requires stored { 1 ≤ v.now.format }
    requires length { length v.now.body + 42 ≤ store.old.geometry.size }

    ensures pool { IsPool D.meaning store.new }
    ensures geometry { store.new.geometry ≡ store.old.geometry }
    ensures lays { MatchResult result
        (LaysIn D.meaning store.old store.new table.now Way.Make write.now v.now)
        (FailsNew D.meaning store.old store.new table.now write.now v.now) }
{
    // The place has a batch of its own: a table that grows puts the new page before the pointer page that lists
    // it, and a first version on that page asks for the contrary.
    let at = take_place(store, table.pointer)?;
    in_record(at, enter_first(store, table, at, write, v))
}

/// Takes a dead transaction's newest version out of a record, lays the entries, and pushes a version.
fn lay_over_dead<D: Disk>(
    store: &mut Store<D>,
    table: &Table,
    rec: RecId,
    write: &Write,
    v: &Version,
) -> Result<(), SpaceFault>
    requires pool { IsPool D.meaning store.old }
    requires geometry { IsGeometry store.old.geometry }
    requires short { KeysMayBeLaid store.old.geometry.size table.now write.now }
    requires apart { v.now.primary ≡ false }
    requires stored { 1 ≤ v.now.format }
    requires length { length v.now.body + 42 ≤ store.old.geometry.size }

    ensures pool { IsPool D.meaning store.new }
    ensures geometry { store.new.geometry ≡ store.old.geometry }
    ensures lays { MatchResult result
        (λ _. LaysOverDead D.meaning store.old store.new table.now rec write.now v.now)
        (FailsOverDead D.meaning store.old store.new table.now rec write.now v.now) }
{
    take_newest_out(store, rec)?;
    enter_over(store, table, rec, write, v)
}

/// Lays the entries for a record that has a place, and puts its first version there.
fn enter_first<D: Disk>(
    store: &mut Store<D>,
    table: &Table,
    at: RecId,
    write: &Write,
    v: &Version,
) -> Result<(), SpaceFault>
    requires pool { IsPool D.meaning store.old }
    requires geometry { IsGeometry store.old.geometry }
    requires owner { table.now.pointer.0 < GREATEST_LIMIT }
    requires some { table.now.pointer.0 ≢ 0 }
    requires short { KeysMayBeLaid store.old.geometry.size table.now write.now }
    requires apart { v.now.primary ≡ false }
    requires stored { 1 ≤ v.now.format }
    requires length { length v.now.body + 42 ≤ store.old.geometry.size }

    ensures pool { IsPool D.meaning store.new }
    ensures geometry { store.new.geometry ≡ store.old.geometry }
    ensures lays { MatchResult result
        (λ _. EntersFirst D.meaning store.old store.new table.now at write.now v.now)
        (FailsEnterFirst D.meaning store.old store.new table.now at write.now v.now) }
{
    enter_row(store, table, at, write)?;
    make_first(store, table.pointer, at, v)
}

/// Lays the entries, and pushes a version over the newest one of a record.
fn enter_over<D: Disk>(
    store: &mut Store<D>,
    table: &Table,
    rec: RecId,
    write: &Write,
    v: &Version,
) -> Result<(), SpaceFault>
    requires pool { IsPool D.meaning store.old }
    requires geometry { IsGeometry store.old.geometry }
    requires short { KeysMayBeLaid store.old.geometry.size table.now write.now }
    requires apart { v.now.primary ≡ false }
    requires stored { 1 ≤ v.now.format }
    requires length { length v.now.body + 42 ≤ store.old.geometry.size }

    ensures pool { IsPool D.meaning store.new }
    ensures geometry { store.new.geometry ≡ store.old.geometry }
    ensures lays { MatchResult result
        (λ _. EntersOver D.meaning store.old store.new table.now rec write.now v.now)
        (FailsEnterOver D.meaning store.old store.new table.now rec write.now v.now) }
{
    enter_row(store, table, rec, write)?;
    push_over(store, rec, v)
}

/// Lays the entries of a write's row for a record, and replaces the transaction's own newest version there, each in a
/// batch of its own.
///
/// # Errors
///
/// As those batches. Entries that were laid stay.
pub fn enter_own<D: Disk>(
    store: &mut Store<D>,
    table: &Table,
    rec: RecId,
    write: &Write,
    v: &Version,
) -> Result<(), SpaceFault>
    requires pool { IsPool D.meaning store.old }
    requires geometry { IsGeometry store.old.geometry }
    requires short { KeysMayBeLaid store.old.geometry.size table.now write.now }
    requires apart { v.now.primary ≡ false }
    requires stored { 1 ≤ v.now.format }
    requires length { length v.now.body + 42 ≤ store.old.geometry.size }

    ensures pool { IsPool D.meaning store.new }
    ensures geometry { store.new.geometry ≡ store.old.geometry }
    ensures lays { MatchResult result
        (λ _. EntersOwn D.meaning store.old store.new table.now rec write.now v.now)
        (FailsEnterOwn D.meaning store.old store.new table.now rec write.now v.now) }
{
    enter_row(store, table, rec, write)?;
    replace_newest(store, rec, v)
}
