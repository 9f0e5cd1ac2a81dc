//! What holds of this part of a rung. The function does nothing: its contract is the law.

ghost use Rattle.mg_check_data.specs.DataRung.{DataLaw};

/// Nothing is found of a data page that is as a sound image asks it.
pub fn lawful_data_pages_pass()
    ensures { DataLaw }
{}
