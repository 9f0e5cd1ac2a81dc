//! Whether words are a command line.

ghost use Rattle.std.specs.Prelude.{◌≡◌, ◌↔◌, ℕ, IsTrue, List, Option, string_bytes};
ghost use Rattle.mg_words.specs.Words.{IsPath, Spells, texts};
ghost use Rattle.mg_commands.specs.CommandLine.{AreRows, Asks, Follow, IsCommandLine, Tends, care_spelled, care_word, command_word};
ghost use Rattle.mg_commands.specs.declared.command.Care.{Care as AnyCare};
ghost use Rattle.mg_commands.specs.declared.command.Command.{Command as AnyCommand};
ghost use Rattle.mg_commands.specs.declared.command.Command.TheVariants.{Fix as FixCommand, Load as LoadCommand};
ghost use Rattle.mg_commands.specs.declared.command.Options.{Options as AnyOptions};

use crate::switch::Switches;
use crate::word::{CareWord, CommandWord};
use mg_words::unsigned;

/// The most rows that `load` makes.
pub(crate) const MOST_ROWS: u32 = 100_000;

/// Whether a word is a path.
pub(crate) fn is_path(word: &String) -> bool
    ensures { IsTrue result ↔ IsPath (string_bytes word.now) }
{
    word.as_bytes().first() != Some(&b'-')
}

/// Whether words are options, of those that may come.
pub(crate) fn are_options(left: Switches, words: &[String]) -> bool
    ensures { IsTrue result ↔ ((options : AnyOptions) × Follow left (texts words.now) options) }
{
    if words.is_empty() {
        return true;
    }
    if words.len() < 2 {
        return false;
    }
    let Some(switch) = left.given_by(&words[0], &words[1]) else {
        return false;
    };
    let (_, rest) = words.split_at(2);
    are_options(left.without(switch), rest)
}

/// Whether a word spells a number.
fn is_number(word: &String) -> bool
    ensures { IsTrue result ↔ ((n : ℕ) × Spells (string_bytes word.now) n) }
{
    unsigned(word.as_bytes()).is_some()
}

/// Whether `load` makes so many rows.
fn is_row_count(rows: u32) -> bool
    ensures { IsTrue result ↔ AreRows rows }
{
    1 <= rows && rows <= MOST_ROWS
}

/// Whether a word spells how many rows `load` makes.
fn are_rows(word: &String) -> bool
    ensures { IsTrue result ↔ ((n : ℕ) × Spells (string_bytes word.now) n × AreRows n) }
{
    match unsigned(word.as_bytes()) {
        Some(rows) => is_row_count(rows),
        None => false,
    }
}

/// Whether words behind the path are those of `load`.
fn is_load(words: &[String]) -> bool
    ensures { IsTrue result ↔ ((rows : ℕ) × (options : AnyOptions)
        × Asks (LoadCommand rows options) (texts words.now)) }
{
    let Some((number, options)) = words.split_first() else {
        return false;
    };
    are_rows(number) && are_options(Switches::every(), options)
}

/// Whether words say what `gfix` does, behind the first of them.
fn is_care(word: CareWord, words: &[String]) -> bool
    ensures { IsTrue result ↔ ((care : AnyCare) × (stop : Option ℕ) × (care_word care ≡ word)
        × Tends care (texts words.now) stop) }
{
    if !word.is_decision() {
        return are_options(Switches::stop_alone(), words);
    }
    let Some((number, options)) = words.split_first() else {
        return false;
    };
    is_number(number) && are_options(Switches::stop_alone(), options)
}

/// Whether words behind the path are those of `gfix`.
fn is_fix(words: &[String]) -> bool
    ensures { IsTrue result ↔ ((care : AnyCare) × (stop : Option ℕ)
        × Asks (FixCommand care stop) (texts words.now)) }
{
    let Some((first, rest)) = words.split_first() else {
        return false;
    };
    match CareWord::of(first.as_str()) {
        Some(word) => is_care(word, rest),
        None => false,
    }
}

/// Whether words behind the path are those of a command.
fn are_asked(word: CommandWord, words: &[String]) -> bool
    ensures { IsTrue result ↔ ((command : AnyCommand) × (command_word command ≡ word)
        × Asks command (texts words.now)) }
{
    match word {
        CommandWord::Run => are_options(Switches::every(), words),
        CommandWord::Storm => are_options(Switches::of_storm(), words),
        CommandWord::Load => is_load(words),
        CommandWord::Stat => words.is_empty(),
        CommandWord::Fix => is_fix(words),
    }
}

/// Whether words are a command line: the program's name, the command, the path, what the command
/// needs besides, and its options. It takes no memory.
pub fn are_words(words: &[String]) -> bool
    ensures { IsTrue result
        ↔ ((command : AnyCommand) × IsCommandLine (texts words.now) command) }
{
    if words.len() < 3 || !is_path(&words[2]) {
        return false;
    }
    let Some(word) = CommandWord::of(words[1].as_str()) else {
        return false;
    };
    let (_, rest) = words.split_at(3);
    are_asked(word, rest)
}

/// A command line asks for one command.
pub fn lines_ask_once()
    ensures { (words : List (List ℕ)) (a b : AnyCommand) → IsCommandLine words a
        → IsCommandLine words b → a ≡ b }
{}
