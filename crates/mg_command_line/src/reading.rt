//! Reading the words of `run DB`.

ghost use Rattle.clap.specs.Words.{app_of, kind_of, new_app, rule_of, subcommand_rows_of};
ghost use Rattle.mg_command_line.specs.Commands.{main_app, positional_rule, quiet, switch_rule};
ghost use Rattle.mg_command_line.specs.Options.{AreOptions, HasRun, IsPlainWord, Switch, run_words};
ghost use Rattle.std.specs.Prelude.{◌≡◌, ℕ, false, codes, List, IfErr, IfOk, map};

use clap::error::ErrorKind;
use clap::{Arg, ArgAction, ArgMatches, Command, Error};
use std::alloc::{AllocError, Global};

/// An argument by its place.
fn positional<'a>(alloc: Global, name: &'a str) -> Arg<'a>
    ensures rule { rule_of result ≡ positional_rule name.entry.now }
    ensures local { result.global ≡ false }
{
    Arg::new(alloc, name).action(ArgAction::Set)
}

/// An option with one value.
fn switch<'a>(alloc: Global, name: &'a str) -> Arg<'a>
    ensures rule { rule_of result ≡ switch_rule name.entry.now }
    ensures local { result.global ≡ false }
{
    Arg::new(alloc, name).long(name).action(ArgAction::Set)
}

/// The program without its subcommands.
fn quiet_program<'a>(alloc: Global) -> Command<'a>
    ensures { app_of result ≡ quiet (new_app (codes "program")) }
{
    Command::new(alloc, "program")
        .disable_help_flag(true)
        .disable_help_subcommand(true)
        .disable_version_flag(true)
}

/// The program, with the command `run`.
fn main_command<'a>(alloc: Global) -> Result<Command<'a>, AllocError>
    ensures { IfOk result (λ c. app_of c ≡ main_app) }
{
    let bare = Command::new(alloc, "run");
    let with_path = bare.arg(positional(alloc, "path"))?;
    let with_page = with_path.arg(switch(alloc, "page"))?;
    let with_limit = with_page.arg(switch(alloc, "limit"))?;
    let whole = with_limit.arg(switch(alloc, "stop"))?;
    quiet_program(alloc).subcommand(whole)
}

/// Reads words: the program's name, `run`, a path, and `--page`, `--limit` and `--stop` in any order, each at most once
/// and with a value.
pub fn read_run<'a>(alloc: Global, words: &'a [&'a str]) -> Result<ArgMatches<'a>, Error>
    ensures fails { (program path : List ℕ) (options : List (Switch × List ℕ)) → IsPlainWord path
        → AreOptions options → map (λ s. s.now) words.now ≡ run_words program path options
        → IfErr result (λ e. kind_of e ≡ ErrorKind.OutOfMemory) }
    ensures gives { (program path : List ℕ) (options : List (Switch × List ℕ)) → IsPlainWord path
        → AreOptions options → map (λ s. s.now) words.now ≡ run_words program path options
        → IfOk result (λ m. HasRun (subcommand_rows_of m) path options) }
{
    let program = main_command(alloc)?;
    program.try_get_matches_from(words)
}
