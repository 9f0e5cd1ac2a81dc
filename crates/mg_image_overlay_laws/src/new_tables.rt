//! A transaction makes tables. Each function does nothing: its contract is the law.

ghost use Rattle.mg_image.specs.Form.{packed_coding, packed_form};
ghost use Rattle.mg_image_overlay_laws.specs.names.JoinedRows.{JoinNames};
ghost use Rattle.mg_image_overlay_laws.specs.names.MadeRows.{MakersName};
ghost use Rattle.mg_image_overlay_laws.specs.names.Making.{MakeKeeps};

/// Of catalog rows alone: with the rows of other tables a catalog is lawful and names those too, each in
/// its place.
pub fn rows_name_more()
    ensures { JoinNames }
{}

/// Whichever transactions in limbo come to be committed, the catalog names the tables that one more has
/// made where its rows are among them.
pub fn makers_name_more()
    ensures { MakersName packed_coding }
{}

/// Tables are made.
pub fn made_tables_keep()
    ensures { MakeKeeps packed_form }
{}
