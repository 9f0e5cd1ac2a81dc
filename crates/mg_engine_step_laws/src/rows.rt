//! Rows of the catalog without those of some tables. Each function's contract is the law.

ghost use Rattle.mg_engine_step_laws.specs.tables_back.TakenRows.{TablesAreLeft};
ghost use Rattle.mg_engine_step_laws.specs.tables_back.Whole.{GoneAreWhole};
ghost use Rattle.mg_image.specs.Form.{packed_form};

/// The rows that are left name the tables that are left.
pub fn tables_are_left()
    ensures { TablesAreLeft }
{}

/// Rows since a point are of whole tables.
pub fn gone_tables_are_whole()
    ensures { GoneAreWhole packed_form }
{}
