//! The commands of the program: which words of a command line ask for which command.
//!
//! Owns: the grammar of the words (`specs/CommandLine`), and the test that decides it exactly.
//!
//! | words | what |
//! |---|---|
//! | `run DB` | obeys the script on standard input on the file DB, which is made where it is not there |
//! | `storm DB` | the same with one thread for each session |
//! | `load DB N` | makes a table and fills it with N rows, 1 to 100,000 |
//! | `gstat DB` | prints the header, the markers and the figures of the tables |
//! | `gfix DB validate` | tests the file, and releases its orphan pages |
//! | `gfix DB list` | prints the transactions in limbo |
//! | `gfix DB commit N`, `gfix DB rollback N` | decides transaction N, which is in limbo |
//! | `gfix DB sweep` | sweeps the file |
//! | `--page N` | run, storm, load: the page size of a new file: 1024, 2048, 4096, 8192 or 16384; 4096 without it |
//! | `--limit N` | run, storm, load: how many pages the file may have: 16 to 131072, the latter without it |
//! | `--stop N` | run, load, gfix: the first N page writes pass, and each later one fails |
//!
//! Options come last, in any order, each at most once, and as two words. Numbers are decimal, without a sign or a
//! leading zero, and below 2^32. A path that begins with `-` is none, so that no mistyped option makes a file.
//!
//! Invariant: none, it keeps no state.
//! The program has three of these commands, `run DB`, `gstat DB` and `gfix DB list` (`ProgramCommand`), and `read_command` tells
//! which one is asked for. The words of another one are no command line of the program until it has it.
//!
//! Below: `mg_words`, for numbers that are spelled and the options of `run DB`. Above: `mg_program`.
//! Not here: what a command does; tests of single command lines (`mg_commands_tests`).
#![tactic(auto)]

mod command;
mod deciding;
mod program;
mod switch;
mod word;

pub use command::{Care, Command, Options};
pub use deciding::{are_words, lines_ask_once};
pub use program::{ProgramCommand, read_command, run_lines_list_none, stat_lines_ask_once};
pub use word::{CareWord, CommandWord};
