//! The rows with which a table is filled to try things on: each is made from its number.
//!
//! | column | of row i |
//! |---|---|
//! | key | i * 40503 mod 131072 |
//! | group | i mod 100 |
//! | note | `row ` and i in decimal |
//!
//! Owns: these values, for rows 1 to 100,000; that no two of them have one key, since 40503 is odd and there are no more of
//! them than keys; and what stands in all rows together: the sum of the groups, and how many rows are of group 7.
//!
//! Invariant: none, it keeps no state.
//! Below: `mg_base`; `itoa` of the kit, for decimal numbers. Above: nobody yet; the command that makes the table.
//! Not here: the table, its index, and how rows are put into it.
#![tactic(auto)]

mod figures;
mod laws;
mod row;

pub use figures::{sevens_of, sum_of};
pub use laws::keys_differ;
pub use row::{GROUPS, KEYS, MOST_ROWS, group_of, key_of, put_note};
