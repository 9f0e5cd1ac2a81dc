//! A change of a transaction is taken back.

ghost use Rattle.std.specs.Prelude.{◌≡◌, IfSome, MatchResult};
ghost use Rattle.std.specs.Option.{option_copied};
ghost use Rattle.mg_works.specs.Works.{MayBeGiven};
ghost use Rattle.mg_core.specs.Cores.{IsCore};
ghost use Rattle.mg_taking_back.specs.Changes.{FailsChange, FailsPages, TakesChange, change_of, table_back as table_back_of};

use crate::keys::take_in;
use mg_base::{Disk, TxNo};
use mg_batches::unlawful;
use mg_core::{Core, StatesOf};
use mg_model::{Refusal, Table};
use mg_space::SpaceFault;
use mg_undo::Was;
use mg_value::Key;
use mg_works::Works;

/// The table that begins at a page: the catalog, or one that the transaction has written into.
fn table_back<'a>(catalog: &'a Table, works: &'a Works, t: TxNo, number: u32) -> Option<&'a Table>
    requires catalog { MayBeGiven catalog.now }
    ensures table { option_copied result ≡ table_back_of catalog.now works.now t.0 number }
    ensures may { IfSome result (λ table. MayBeGiven table.now) }
{
    if catalog.pointer.0 == number {
        return Some(catalog);
    }
    works.written(t, number)
}

/// Takes a key back on the pages.
///
/// # Errors
///
/// `Damaged` by `unlawful` where its table is not known; as `take_in`.
fn take_pages<D: Disk>(
    core: &mut Core<D>,
    t: TxNo,
    number: u32,
    key: Key,
    was: Was,
) -> Result<(), SpaceFault>
    requires core { IsCore D.meaning core.old }
    ensures core { IsCore D.meaning core.new }
    ensures takes { MatchResult result
        (λ _. TakesChange D.meaning core.old core.new t.0 (change_of number key was))
        (FailsPages D.meaning core.old core.new t.0 (change_of number key was)) }
{
    let Some(table) = table_back(&core.catalog, &core.works, t, number) else {
        return Err(SpaceFault::Damaged(unlawful()));
    };
    let states = StatesOf::new(&core.list);
    take_in(&mut core.store, table, &states, &core.live, t, key, was)
}

/// Takes a change of a key back: what was before comes back on the pages.
///
/// `number` is the first page of the table.
///
/// # Errors
///
/// `Damaged` where no such table is known, no record speaks for the key, or its newest version is another transaction's,
/// none of which a lawful engine meets; or what the pages are refused for, or `Memory`.
pub fn take_key<D: Disk>(
    core: &mut Core<D>,
    t: TxNo,
    number: u32,
    key: Key,
    was: Was,
) -> Result<(), Refusal>
    requires core { IsCore D.meaning core.old }
    ensures core { IsCore D.meaning core.new }
    ensures takes { MatchResult result
        (λ _. TakesChange D.meaning core.old core.new t.0 (change_of number key was))
        (FailsChange D.meaning core.old core.new t.0 (change_of number key was)) }
{
    match take_pages(core, t, number, key, was) {
        Ok(()) => Ok(()),
        Err(fault) => Err(core.refuse(fault)),
    }
}
