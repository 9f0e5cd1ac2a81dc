//! A table is made on the pages.

ghost use Rattle.std.specs.Prelude.{◌≡◌, ◌≢◌, ◌≤◌, ◌<◌, MatchResult, length};
ghost use Rattle.mg_pool.specs.Pool.{IsPool};
ghost use Rattle.mg_space.specs.Taking.{IsGeometry};
ghost use Rattle.mg_table_batch.specs.Making.{FailsTable, FailsTry, MakesTable, MakesTry};

use crate::filling::fill;
use crate::growing::{change_lawful, grow};
use mg_base::{Disk, GREATEST_LIMIT, TxNo};
use mg_batches::unlawful;
use mg_model::Table;
use mg_pool::Batch;
use mg_space::{SpaceFault, Store};
use mg_value::{MOST_COLUMNS, Name, Shape};

/// How often the catalog gets a page for the rows of one table: each of its rows and of its columns' wants one for
/// its slot and one for its version at most.
const MOST_PAGES: usize = 2 * (MOST_COLUMNS + 1);

/// Makes a table: takes its first pointer page, and puts all rows of the catalog that say it, in one batch.
///
/// `catalog` is the table of the catalog, and `t` the transaction whose rows they are. Whether the rows may be put
/// is not asked. Where the catalog has too few pages it gets some first, each in a batch of its own.
///
/// # Errors
///
/// As `take_page`, `spot` and `first`, and as the change of a batch. Pages that the catalog got stay, and hold
/// nothing; nothing else has changed.
pub fn make_table<D: Disk>(
    store: &mut Store<D>,
    catalog: &Table,
    t: TxNo,
    name: &Name,
    shape: &Shape,
) -> Result<(), SpaceFault>
    requires pool { IsPool D.meaning store.old }
    requires geometry { IsGeometry store.old.geometry }
    requires owner { catalog.now.pointer.0 < GREATEST_LIMIT }
    requires some { catalog.now.pointer.0 ≢ 0 }
    requires columns { length shape.now.columns ≤ MOST_COLUMNS }

    ensures pool { IsPool D.meaning store.new }
    ensures geometry { store.new.geometry ≡ store.old.geometry }
    ensures makes { MatchResult result
        (λ _. MakesTable D.meaning catalog.now t.0 name.now shape.now store.old store.new)
        (FailsTable D.meaning catalog.now t.0 name.now shape.now store.old store.new) }
{
    for _ in 0..MOST_PAGES {
        if try_table(store, catalog, t, name, shape)? {
            return Ok(());
        }
    }
    Err(SpaceFault::Damaged(unlawful()))
}

/// Makes a table, if one batch can have it; else the catalog gets a data page. Tells whether the table is made.
fn try_table<D: Disk>(
    store: &mut Store<D>,
    catalog: &Table,
    t: TxNo,
    name: &Name,
    shape: &Shape,
) -> Result<bool, SpaceFault>
    requires pool { IsPool D.meaning store.old }
    requires geometry { IsGeometry store.old.geometry }
    requires owner { catalog.now.pointer.0 < GREATEST_LIMIT }
    requires some { catalog.now.pointer.0 ≢ 0 }
    requires columns { length shape.now.columns ≤ MOST_COLUMNS }

    ensures pool { IsPool D.meaning store.new }
    ensures geometry { store.new.geometry ≡ store.old.geometry }
    ensures tries { MatchResult result
        (MakesTry D.meaning catalog.now t.0 name.now shape.now store.old store.new)
        (FailsTry D.meaning catalog.now t.0 name.now shape.now store.old store.new) }
{
    let mut batch = Batch::new(store.alloc());
    fill(store, &mut batch, catalog, t, name, shape)?;
    if batch.is_lawful(store.geometry().size) {
        change_lawful(store, batch)?;
        return Ok(true);
    }
    grow(store, catalog.pointer)?;
    Ok(false)
}
