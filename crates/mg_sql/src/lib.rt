//! The parser of the query language: a text is a statement, or it has a first fault. One pass over
//! the bytes, one token ahead, and no memory but for the statement.
//!
//! Owns: the grammar, and `parse`. It stands in `specs/`: `Spelling` says how tokens are spelled, `Lexing` which token
//! stands at a place (the longest that can be read there), `Grammar` which tokens are which
//! expression, `Statements` which tokens are which statement. `Answers` says what `parse` answers:
//! the statement that the text's tokens spell; or a fault at the first token behind which no
//! statement can go on.
//!
//! Limits: 65,536 bytes of text (`MOST_TEXT`), 31 bytes of a name, integers up to
//! 9223372036854775807, 32 levels of parentheses, NOT and minus (`LEVELS`), a text column of 1 to
//! 1,000 bytes (`MOST_SIZE`).
//!
//! Below: `mg_statements`, which has the statements and their faults; `mg_base`, `mg_value`, `mg_expr`. Above: the
//! reading of a script.
//! Not here: whether a table, a column or a type fits, and CREATE INDEX (its words are reserved).
#![tactic(auto)]

mod changes;
mod columns;
mod expr;
mod laws;
mod lists;
mod parser;
mod parsing;
mod parts;
mod scanning;
mod selecting;
mod token;
mod transactions;
mod values;

pub use laws::{statements_have_lengths, statements_have_no_fault, texts_are_one_statement};
pub use parsing::parse;
pub use parts::LEVELS;
pub use scanning::MOST_TEXT;
