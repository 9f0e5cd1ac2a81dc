//! What holds of the bytes of rows.

ghost use Rattle.std.specs.Prelude.{◌≡◌, List};
ghost use Rattle.mg_value.specs.declared.shape.Column.{Column as AnyColumn};
ghost use Rattle.mg_value.specs.declared.value.Value.{Value as AnyValue};
ghost use Rattle.mg_value.specs.Rows.{RowFits, row_bytes};
ghost use Rattle.mg_rowcode.specs.Storable.{AreStorable};

/// Two rows of the same columns have different bytes: so the row that is decoded is the one that
/// was encoded.
pub fn one_row()
    ensures { (columns : List AnyColumn) (first second : List AnyValue)
        → RowFits columns first → RowFits columns second → AreStorable first → AreStorable second
        → row_bytes columns first ≡ row_bytes columns second → first ≡ second }
{}
