//! A row is asked for by its key, and what nobody needs of the record goes: so the lines visit it as a statement's step
//! does.

ghost use Rattle.std.specs.Prelude.{◌≡◌, IfOk, OnOk, Some, false};
ghost use Rattle.mg_base.specs.declared.transaction.TxState.TheVariants.{Active};
ghost use Rattle.mg_model.specs.declared.opening.Opening.{Opening};
ghost use Rattle.mg_model.specs.History.{Entries};
ghost use Rattle.mg_model.specs.Machine.{state_of};
ghost use Rattle.mg_records.specs.Keeping.{refusal_in};
ghost use Rattle.mg_tending.specs.Keyed.{HaveTheirKeys, IsSeenAt};
ghost use Rattle.mg_shorthand.specs.Going.{IsFromOutside, ReadsOn, Spares};
ghost use Rattle.mg_shorthand.specs.Visiting.{KeyIsCollected};

use mg_base::TxNo;
use mg_model::{Refusal, Table};
use mg_tending::{Collects, Keyed};
use mg_value::{Key, Row};

/// The row with a key that the transaction sees, None where it sees none; then the record that speaks for the key is
/// collected.
///
/// # Errors
///
/// As `row_with_key` and `collect_key`: from outside, where the transaction is active.
pub(crate) fn visit_key<R: Keyed + Collects>(
    r: &mut R,
    t: TxNo,
    table: &Table,
    key: &Key,
) -> Result<Option<Row>, Refusal>
    requires given { R.meaning.table r.old t.0 table.now.name ≡ Some table.now }
    ensures given { R.meaning.table r.new t.0 table.now.name ≡ Some table.now }
    ensures finds { IfOk result (IsSeenAt R.meaning r.old t.0 table.now.name key.now) }
    ensures keyed { OnOk result (HaveTheirKeys R.meaning r.old t.0 table.now) }
    ensures collects { OnOk result (KeyIsCollected R.meaning R.collecting r.old r.new table.now key.now) }
    ensures outside { (o : Opening) (h : Entries) → R.meaning.stands r.old o h → state_of o h t.0 ≡ Active
        → IsFromOutside result }
    ensures reads { (o : Opening) (h : Entries) → R.meaning.stands r.old o h
        → ReadsOn R.meaning r.old r.new o h }
    ensures spares { Spares R.meaning r.old r.new t (refusal_in result) false }
{
    let row = match r.row_with_key(t, table, key) {
        Ok(row) => row,
        Err(refusal) => return Err(refusal),
    };
    match r.collect_key(t, table, key) {
        Ok(_) => Ok(row),
        Err(refusal) => Err(refusal),
    }
}
