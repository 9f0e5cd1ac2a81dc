//! Values, rows and the shapes of tables: what they are, how values are ordered and printed, and
//! which bytes a row has.
//!
//! Owns: `Value` with its order and its printed text, and the lengths of rows. The bytes of a row of
//! n columns, as `specs/Rows.antt` defines them:
//!
//! | at | width | field |
//! |---|---|---|
//! | 0 | (n + 7) / 8 | a bit for each column, the lowest first: 1 where it is NULL; unused bits 0 |
//! | behind it, per column | 8 for BIGINT | the number in two's complement, the low byte first |
//! | | 2 + m for VARCHAR(m) | the length, the low byte first, and the bytes, with zeros up to m |
//!
//! A column that is NULL is all zero. A column that came after the row's format is NULL, and has
//! neither a bit nor bytes.
//!
//! Invariant: a `Key` is no NULL, a `Name` is a name in capitals and no word of the grammar.
//! Below: `mg_base`. Above: the codings of rows and keys, expressions, and all that speaks of rows.
//! Not here: the coding itself, and the arithmetic of expressions.
#![tactic(auto)]

mod comparing;
mod fault;
mod fitting;
mod key;
mod name;
mod printing;
mod row;
mod shape;
mod text;
mod truth;
mod value;

pub use comparing::{compare, order, values_are_ordered};
pub use fault::ValueFault;
pub use fitting::row_fits;
pub use key::Key;
pub use name::{MOST_NAME, Name, RESERVED};
pub use printing::print;
pub use row::Row;
pub use shape::{
    Column, Columns, GREATEST_WIDTH, Kind, MOST_COLUMNS, NUMBER_WIDTH, Shape, columns_len, row_len,
};
pub use text::Txt;
pub use truth::Truth;
pub use value::Value;
