//! Pages from which tables go that a transaction has made. Each function's contract is the law.

ghost use Rattle.mg_engine_step_laws.specs.tables_back.Taken.{LeftAreKept, LeftAreSound};
ghost use Rattle.mg_image.specs.Form.{packed_form};

/// Pages without the tables stand where their maker counts as in limbo.
pub fn left_tables_stand()
    ensures sound { LeftAreSound packed_form }
    ensures kept { LeftAreKept packed_form }
{}
