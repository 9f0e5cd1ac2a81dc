//! What was at the keys of a new table is kept, to be taken back.

ghost use Rattle.std.specs.Prelude.{◌≡◌, OnErr, OnOk};
ghost use Rattle.mg_table_making.specs.Keeping.{KeepsSome, kept_each, retracted};

use mg_base::{Memory, TxNo};
use mg_undo::Was;
use mg_value::Key;
use mg_works::Works;

/// Keeps for each of these keys that the transaction has not changed it before.
///
/// `owner` is the table's first pointer page.
///
/// # Errors
///
/// `Memory` only. What was kept is taken back then.
pub(crate) fn keep_each(works: &mut Works, t: TxNo, owner: u32, keys: &[Key]) -> Result<(), Memory>
    ensures keeps { OnOk result (works.new ≡ kept_each t.0 owner keys.now works.old) }
    ensures fails { OnErr result (KeepsSome t.0 owner keys.now works.old works.new) }
{
    let mut rest = keys;
    let mut count = 0;
    while let Some((key, later)) = rest.split_first() {
        match works.keep(t, owner, key, Was::Untouched) {
            Ok(()) => {}
            Err(memory) => {
                retract_last(works, t, count);
                return Err(memory);
            }
        }
        count += 1;
        rest = later;
    }
    Ok(())
}

/// Takes the last so many changes back that were kept.
pub(crate) fn retract_last(works: &mut Works, t: TxNo, count: usize)
    ensures { works.new ≡ retracted t.0 count works.old }
{
    for _ in 0..count {
        works.retract(t);
    }
}
