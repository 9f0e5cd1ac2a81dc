//! The laws of catalogs. Each function does nothing: its contract is a law, so that another crate can
//! cite it.

ghost use Rattle.mg_catalog.specs.Laws.{BadNameNone, SaidAreThere, TablesAreOnce};

/// Which tables rows name.
pub fn rows_name_tables()
    ensures once { TablesAreOnce }
    ensures none { BadNameNone }
{}

/// A table is said by the rows that it was read from.
pub fn tables_are_said()
    ensures { SaidAreThere }
{}
