//! Scripts: the lines of sessions, and what is printed of them.
//!
//! Owns: the form of a line (`Line`, `LineKind`) and the reading of a script (`read_script`), what a
//! line is answered (`Reply`) and what is printed of it (`answer_text`). Each
//! byte of a script is in one line: lines end with LF, a CR before it is dropped, and the last may
//! lack its LF. A line is of exactly one form, and a bad one is of none.
//!
//! The definitions stand in `specs/`: `Lines` (the form of a line), `Transcript` and `Texts` (what is
//! printed). Numbers are decimal digits without a sign or a leading
//! zero; keys and values of `@put` and `@get` may have `-` before a number other than 0.
//!
//! Invariant: none, it keeps no state.
//! Below: `mg_statements` and `mg_sql`, which say of a text which statement it is. Above: the program.
//! Not here: what a line does.
#![tactic(auto)]

mod answer;
mod laws;
mod line;
mod putting;
mod reading;
mod refusal;
mod reply;
mod script;
mod splitting;

pub use answer::{answer_text, put_values, session_text};
pub use laws::lines_say_one_thing;
pub use line::{Line, LineKind, MOST_STEPS, SESSIONS, Session};
pub use putting::{put_number, put_word};
pub use refusal::{put_refusal, refusal_line};
pub use reply::Reply;
pub use script::{Script, read_script};
