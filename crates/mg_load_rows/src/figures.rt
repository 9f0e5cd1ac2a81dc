//! What stands in the first rows together.

ghost use Rattle.std.specs.Prelude.{◌≡◌, ◌≤◌};
ghost use Rattle.mg_load_rows.specs.LoadRows.{is_seven, sevens_below, sum_below};
ghost use Rattle.mg_load_rows.specs.declared.row.TheConstants.{MOST_ROWS as ALL_ROWS};

use crate::row::group_of;

/// The sum of the groups of the first rows, so many.
pub fn sum_of(rows: u32) -> u32
    requires { rows ≤ ALL_ROWS }
    ensures { result ≡ sum_below rows }
{
    let mut sum = 0;
    for i in 0..rows {
        sum += group_of(i + 1);
    }
    sum
}

/// One for a row of group 7, none for another, by the row's number.
fn seven(i: u32) -> u32
    ensures seven { result ≡ is_seven i }
    ensures most { result ≤ 1 }
{
    if group_of(i) == 7 { 1 } else { 0 }
}

/// How many of the first rows are of group 7.
pub fn sevens_of(rows: u32) -> u32
    requires { rows ≤ ALL_ROWS }
    ensures { result ≡ sevens_below rows }
{
    let mut sevens = 0;
    for i in 0..rows {
        sevens += seven(i + 1);
    }
    sevens
}
