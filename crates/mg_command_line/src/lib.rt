//! The words of a command line as `clap` of the kit reads them: those of `run DB` with its options.
//!
//! Owns: the command as it is told to `clap` (`main_app`), and that words of the grammar are taken by it, in whatever order
//! the options come, each at most once: they are refused for want of memory alone (`fails`), and what is read of them
//! are the path and the options' values (`gives`).
//!
//! `clap` takes more than the grammar, as `--name=value`, so whether words are a command line is decided before
//! (`mg_commands`), and it reads those that are.
//!
//! Invariant: none, it keeps no state.
//! Below: `clap` of the kit. Above: nobody yet; the program, which decides the words by `mg_commands` and reads them by hand.
//! Not here: other commands, and which numbers an option may have.
#![tactic(auto)]

mod reading;

pub use reading::read_run;
