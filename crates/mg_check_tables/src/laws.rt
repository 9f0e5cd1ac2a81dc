//! What holds of this rung. The function does nothing: its contract is the law.

ghost use Rattle.mg_check_tables.specs.TableRung.{TableLaw};

use mg_check_data::lawful_data_pages_pass;

/// Nothing is found in the pages of a table that are as a sound image asks it.
pub fn lawful_tables_pass()
    ensures { TableLaw }
{
    lawful_data_pages_pass();
}
