//! The commands that the program has, as the words of a command line ask for them.

ghost use Rattle.std.specs.Prelude.{◌≡◌, ◌↔◌, ℕ, IsTrue, List, MatchOption, Option, codes, string_bytes};
ghost use Rattle.mg_words.specs.Words.{IsRun, texts};
ghost use Rattle.mg_words.specs.declared.asked.Asked.{Asked as AnyAsked};
ghost use Rattle.mg_commands.specs.CommandLine.{Asks};
ghost use Rattle.mg_commands.specs.Program.{AsksFor, IsLimboLine, IsProgramLine, IsStatLine};
ghost use Rattle.mg_commands.specs.declared.command.Care.TheVariants.{ListLimbo as ListCare};
ghost use Rattle.mg_commands.specs.declared.command.Command.TheVariants.{Fix as FixCommand};

use crate::deciding::{are_options, is_path};
use crate::switch::Switches;
use mg_words::{Asked, read_words};

/// What a command line of the program asks for, of what the program has.
#[derive(Clone, Copy, Debug, PartialEq, Eq)]
pub enum ProgramCommand {
    /// Obeys a script.
    Run(Asked),
    /// Lists the transactions in limbo.
    ListLimbo,
    /// Prints the figures of a file.
    Stat,
}

/// Whether words behind the path ask `gfix` for the transactions in limbo.
fn is_list(words: &[String]) -> bool
    ensures { IsTrue result ↔ ((stop : Option ℕ) × Asks (FixCommand ListCare stop) (texts words.now)) }
{
    let Some((first, options)) = words.split_first() else {
        return false;
    };
    is_list_word(first) && are_options(Switches::stop_alone(), options)
}

/// Whether a word is `list`.
fn is_list_word(word: &String) -> bool
    ensures { IsTrue result ↔ (string_bytes word.now ≡ codes "list") }
{
    word.as_str() == "list"
}

/// Whether a word is `gfix`.
fn is_gfix(word: &String) -> bool
    ensures { IsTrue result ↔ (string_bytes word.now ≡ codes "gfix") }
{
    word.as_str() == "gfix"
}

/// Whether words ask for the transactions in limbo.
fn is_limbo_line(words: &[String]) -> bool
    ensures { IsTrue result ↔ IsLimboLine (texts words.now) }
{
    if words.len() < 3 || !is_gfix(&words[1]) || !is_path(&words[2]) {
        return false;
    }
    let (_, rest) = words.split_at(3);
    is_list(rest)
}

/// Whether a word is `gstat`.
fn is_gstat(word: &String) -> bool
    ensures { IsTrue result ↔ (string_bytes word.now ≡ codes "gstat") }
{
    word.as_str() == "gstat"
}

/// Whether words ask for the figures of a file.
fn is_stat_line(words: &[String]) -> bool
    ensures { IsTrue result ↔ IsStatLine (texts words.now) }
{
    if words.len() < 3 || !is_gstat(&words[1]) || !is_path(&words[2]) {
        return false;
    }
    let (_, rest) = words.split_at(3);
    rest.is_empty()
}

/// What words ask for, if they are a command line of a command that the program has. It takes no memory.
pub fn read_command(words: &[String]) -> Option<ProgramCommand>
    ensures { MatchOption result (IsProgramLine (texts words.now) → ⊥) (AsksFor (texts words.now)) }
{
    if let Some(asked) = read_words(words) {
        return Some(ProgramCommand::Run(asked));
    }
    if is_limbo_line(words) {
        return Some(ProgramCommand::ListLimbo);
    }
    if is_stat_line(words) {
        return Some(ProgramCommand::Stat);
    }
    None
}

/// A line of `run` does not ask for the transactions in limbo.
pub fn run_lines_list_none()
    ensures { (words : List (List ℕ)) (asked : AnyAsked) → IsRun words asked → IsLimboLine words → ⊥ }
{}

/// A line that asks for the figures of a file is none of `run`, and does not ask for the transactions in limbo.
pub fn stat_lines_ask_once()
    ensures runs { (words : List (List ℕ)) (asked : AnyAsked) → IsRun words asked → IsStatLine words → ⊥ }
    ensures lists { (words : List (List ℕ)) → IsLimboLine words → IsStatLine words → ⊥ }
{}
