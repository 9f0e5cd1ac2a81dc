//! What the list of a transaction gives to take back, over tables. The function does nothing: its contract is the laws.

ghost use Rattle.mg_engine_change_laws.specs.tables_back.RowsGiven.{GivenApart, RowsAreLeft};

/// What is given falls into the changes of other tables and the rows of the catalog, and these are left last.
pub fn rows_are_given()
    ensures apart { GivenApart }
    ensures left { RowsAreLeft }
{}
