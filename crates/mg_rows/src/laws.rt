//! Laws of what statements compute of rows.

ghost use Rattle.mg_rows.specs.Laws.{FoundInAnyOrder, FaultsInAnyOrder, FoundWithoutKeys, FoundAsAnswered, InsertedFits, UpdatedFits, KeyStays, UpdatedEach};
ghost use Rattle.mg_rows.specs.BoundLaws.{BoundInsert, BoundUpdate};

/// Rows that are visited in any order, of which those that pass a filter are kept and then sorted by
/// their keys, are those that the filter finds in key order, and those that the history machine
/// answers. A fault in one order is one in each.
pub fn order_of_visits_is_nothing()
    ensures any { FoundInAnyOrder }
    ensures fault { FaultsInAnyOrder }
    ensures bare { FoundWithoutKeys }
    ensures answered { FoundAsAnswered }
{}

/// New rows fit the columns of their table, where the expressions are of the columns' types, and for an
/// UPDATE the old rows fit too. What an UPDATE makes of a row has the row's key.
pub fn new_rows_fit()
    ensures inserted { InsertedFits }
    ensures updated { UpdatedFits }
    ensures key { KeyStays }
    ensures each { UpdatedEach }
{}

/// A bound INSERT or UPDATE has as many places as values, and the values fit the columns there; an
/// UPDATE has no place of the primary key.
pub fn bound_values_fit()
    ensures insert { BoundInsert }
    ensures update { BoundUpdate }
{}
