//! What small expressions say: tables and corner cases, computed from the definitions.

ghost use Rattle.mg_expr.specs.Examples.{AndTable, OrTable, NotTable, Comparisons, TextsAndNull, Sums, Products, Negatives, FilterTable};
ghost use Rattle.mg_expr.specs.Typing.{TypesHold};
ghost use Rattle.mg_expr.specs.Filters.{PassesWhereTrue};

/// Truth has three values, and a part that can't change the truth any more isn't evaluated.
pub fn truths_have_three_values()
    ensures and_table { AndTable }
    ensures or_table { OrTable }
    ensures not_table { NotTable }
{}

/// Comparisons are unknown with NULL, and IS NULL never is.
pub fn null_compares_with_nothing()
    ensures signs { Comparisons }
    ensures texts { TextsAndNull }
{}

/// Arithmetic is exact on 64 bits, or it faults; with NULL it is NULL.
pub fn arithmetic_is_exact()
    ensures sums { Sums }
    ensures products { Products }
    ensures negatives { Negatives }
{}

/// What a well typed expression says of a row that fits the columns is of its type: an integer or
/// NULL, a text or NULL, NULL, or a truth; or it faults.
pub fn types_hold()
    ensures { TypesHold }
{}

/// A row passes a filter exactly where the filter is TRUE. The parts of an AND at the top of a
/// filter are tested one by one, and those behind a part that is unknown are not evaluated.
pub fn a_filter_passes_where_it_is_true()
    ensures table { FilterTable }
    ensures passes { PassesWhereTrue }
{}
