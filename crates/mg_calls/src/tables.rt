//! The making of a table.

ghost use Rattle.std.specs.Prelude.{◌≡◌, ◌≢◌};
ghost use Rattle.mg_value.specs.Names.{IsName};
ghost use Rattle.mg_model.specs.declared.opening.Opening.{Opening};
ghost use Rattle.mg_model.specs.Catalog.{catalog_name};
ghost use Rattle.mg_model.specs.History.{Entries};
ghost use Rattle.mg_records.specs.Writing.{FitsPages, IsNewShape, rows_made};
ghost use Rattle.mg_calls.specs.Frames.{Frames};
ghost use Rattle.mg_calls.specs.Quiet.{AreQuiet};
ghost use Rattle.mg_calls.specs.Tables.{MakesOne, MarksAndMakes};
ghost use Rattle.mg_calls.specs.Writes.{ended_by, refusal_written};

use crate::writing::{Written, undo, waits_on};
use mg_base::TxNo;
use mg_records::Records;
use mg_value::{Name, Shape};

/// Makes a table for a statement that has set its mark. Where it waits it can be tried again, which
/// begins with the first of its rows; where it is refused, and doesn't wait, the statement is undone,
/// or the transaction rolled back.
pub fn make_table<R: Records>(r: &mut R, t: TxNo, name: &Name, shape: &Shape) -> Written
    requires named { IsName name.now }
    requires other { name.now ≢ catalog_name }
    requires shape { IsNewShape shape.now }
    requires pages { FitsPages R.meaning r.old shape.now }
    ensures makes { (o : Opening) (h : Entries) → R.meaning.stands r.old o h
        → MakesOne R.meaning r.new o h t (rows_made name.now shape.now) result }
    ensures frames { Frames R.meaning r.old r.new t.0 (refusal_written result) }
    ensures quiet { AreQuiet R.meaning r.old r.new (ended_by t.0 result) }
{
    match r.create_table(t, name, shape) {
        Ok(()) => Written::Done,
        Err(refusal) => match waits_on(refusal) {
            Some(on) => Written::Waits(on),
            None => undo(r, t, refusal),
        },
    }
}

/// Sets the mark of a statement, and makes its table. Where the mark is refused there is nothing to
/// undo.
pub fn mark_and_make<R: Records>(r: &mut R, t: TxNo, name: &Name, shape: &Shape) -> Written
    requires named { IsName name.now }
    requires other { name.now ≢ catalog_name }
    requires shape { IsNewShape shape.now }
    requires pages { FitsPages R.meaning r.old shape.now }
    ensures makes { (o : Opening) (h : Entries) → R.meaning.stands r.old o h
        → MarksAndMakes R.meaning r.new o h t (rows_made name.now shape.now) result }
    ensures frames { Frames R.meaning r.old r.new t.0 (refusal_written result) }
    ensures quiet { AreQuiet R.meaning r.old r.new (ended_by t.0 result) }
{
    match r.mark(t) {
        Ok(()) => make_table(r, t, name, shape),
        Err(refusal) => Written::Refused(refusal),
    }
}
