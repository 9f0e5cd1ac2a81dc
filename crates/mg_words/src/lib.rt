//! The words of a command line, `run DB` and its options; and the numbers that are spelled there and in
//! a script.
//!
//! Owns: which command lines the program takes (`specs/Words`), and what they ask for; decimal numbers,
//! `unsigned` of 32 bits and `signed` of 64: digits without a leading zero, and `-` before a negative
//! one, so that each takes exactly the spellings that printing gives.
//!
//! | words | what |
//! |---|---|
//! | `run DB` | obeys the script on standard input on the file DB, which is made where it is not there |
//! | `--page N` | the page size of a new file: 1024, 2048, 4096, 8192 or 16384; 4096 without it |
//! | `--limit N` | how many pages the file may have: 16 to 131072, the latter without it |
//! | `--stop N` | the first N page writes pass, and each later one fails |
//!
//! Options come behind the path, in any order, each at most once, and as two words. A path that begins with
//! `-` is none, so that no mistyped option makes a file.
//!
//! Invariant: none, it keeps no state.
//! Below: `itoa`, which prints numbers. Above: the lines of a script, and the program.
//! Not here: what a command does, and which numbers a line of a script may have.
#![tactic(auto)]

mod asked;
mod number;
mod reading;
mod switch;

pub use asked::Asked;
pub use number::{signed, unsigned};
pub use reading::{USUAL_PAGE, read_words, wanted_page};
