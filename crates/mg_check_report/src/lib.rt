//! The findings of a validation as they are printed: a line for each, and their number.
//!
//! Owns: the text of a list of findings (`report_text`), and the call that puts it behind another
//! text; whether one of them is a damage, by which orphan pages are released or not. The lines stand
//! in `docs/SCRIPT.md`.
//!
//! Invariant: none, it keeps no state. It takes the memory of the text.
//! Below: `mg_findings`, for findings; `mg_script`, for words and numbers, and for the text of a
//! damage. Above: nobody yet; the command `gfix DB validate`.
//! Not here: what is found, and where the text goes.
#![tactic(auto)]

mod text;

pub use text::{has_damage, put_report};
