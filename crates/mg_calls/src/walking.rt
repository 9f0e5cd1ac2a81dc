//! A walk over the records of a table.

ghost use Rattle.std.specs.Prelude.{◌≡◌, [], ℕ, Some, None};
ghost use Rattle.mg_base.specs.declared.transaction.TxState.TheVariants.{Active};
ghost use Rattle.mg_model.specs.declared.opening.Opening.{Opening};
ghost use Rattle.mg_model.specs.Changes.{KeyedRows};
ghost use Rattle.mg_model.specs.History.{Entries};
ghost use Rattle.mg_model.specs.Machine.{state_of};
ghost use Rattle.mg_records.specs.Keeping.{FaultsAreTold, Reads, refusal_in};
ghost use Rattle.mg_calls.specs.Quiet.{AreCalm, IsQuietAt};
ghost use Rattle.mg_calls.specs.Walks.{ComesToFitting, IsOnItsWay, HasCome, GoesOn, Progresses};

use mg_base::TxNo;
use mg_model::{Refusal, Table};
use mg_records::Records;
use mg_value::{Key, Row};

/// A walk over the records of a table.
#[derive(Drop)]
pub struct Walk<P> {
    pub table: Table,
    /// Where it has come to, None at its beginning.
    pub place: Option<P>,
}

/// What a walk has come to.
#[derive(Debug, Drop)]
pub enum Visit {
    /// A record, with the row that the transaction sees there and its key, if there is one.
    Record(Option<(Key, Row)>),
    /// The end: there is no further record.
    End,
}

/// Begins a walk over a table.
pub fn start_walk<R: Records>(_r: &R, table: Table) -> Walk<R::Place>
    ensures table { result.table ≡ table }
    ensures place { result.place ≡ None }
    ensures begins { (o : Opening) (h : Entries) (t : ℕ) → R.meaning.stands _r.now o h
        → state_of o h t ≡ Active → R.meaning.table _r.now t table.name ≡ Some table
        → HasCome R.meaning _r.now o h t result [] }
{
    Walk { table, place: None }
}

/// Goes on to the next record.
pub fn visit_next<R: Records>(
    r: &mut R,
    t: TxNo,
    walk: &mut Walk<R::Place>,
) -> Result<Visit, Refusal>
where
    R::Place: Drop,
    requires ready { IsOnItsWay R.meaning r.old t.0 walk.old }
    ensures ready { IsOnItsWay R.meaning r.new t.0 walk.new }
    ensures table { walk.new.table ≡ walk.old.table }
    ensures fits { ComesToFitting walk.old.table.shape result }
    ensures progress { Progresses R.meaning r.old r.new t.0 walk.old walk.new result }
    ensures reads { Reads R.meaning r.old r.new (refusal_in result) (Some t.0) }
    ensures told { FaultsAreTold R.meaning r.old r.new (refusal_in result) }
    ensures calm { AreCalm R.meaning r.old r.new None }
    ensures quiet { (o : Opening) (h : Entries) (visited : KeyedRows) → R.meaning.stands r.old o h
        → HasCome R.meaning r.old o h t.0 walk.old visited → IsQuietAt R.meaning r.old r.new o h }
    ensures comes { (o : Opening) (h : Entries) (visited : KeyedRows) → R.meaning.stands r.old o h
        → HasCome R.meaning r.old o h t.0 walk.old visited
        → GoesOn R.meaning r.new o h t.0 walk.new visited result }
{
    match r.scan_step(t, &walk.table, walk.place.as_ref()) {
        Ok(Some(found)) => {
            walk.place = Some(found.place);
            Ok(Visit::Record(found.row))
        }
        Ok(None) => Ok(Visit::End),
        Err(refusal) => Err(refusal),
    }
}
