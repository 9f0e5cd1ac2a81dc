//! What follows of the definitions.

ghost use Rattle.mg_sql.specs.Laws.{StatementsHaveNoFault, TextsAreOneStatement};
ghost use Rattle.mg_sql.specs.Lengths.{StatementsHaveLengths};

/// A text that is a statement has no fault.
pub fn statements_have_no_fault()
    ensures { StatementsHaveNoFault }
{}

/// A text is one statement.
pub fn texts_are_one_statement()
    ensures { TextsAreOneStatement }
{}

/// Each VARCHAR of a statement has 1 to 1000 bytes.
pub fn statements_have_lengths()
    ensures { StatementsHaveLengths }
{}
