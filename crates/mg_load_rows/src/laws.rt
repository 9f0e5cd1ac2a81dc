//! What holds of the keys. The function does nothing: its contract is the law.

ghost use Rattle.mg_load_rows.specs.LoadRows.{KeyLaw};

/// No two rows have one key.
pub fn keys_differ()
    ensures { KeyLaw }
{}
