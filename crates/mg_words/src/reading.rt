//! Reading the words of a command line.

ghost use Rattle.std.specs.Prelude.{◌≡◌, ◌↔◌, IsTrue, MatchOption, codes, length, string_bytes, true};
ghost use Rattle.mg_base.specs.Geometry.{is_page_size};
ghost use Rattle.mg_words.specs.Words.{Follow, IsPath, IsRun, IsWanted, texts};
ghost use Rattle.mg_words.specs.declared.asked.Asked.{Asked as AnyAsked};

use crate::asked::Asked;

/// The page size of a new file for which none is asked, in bytes.
pub const USUAL_PAGE: u32 = 4096;

// Whether a command and a path begin the command line `run DB`.
fn is_run(command: &String, path: &String) -> bool
    ensures { IsTrue result
        ↔ ((string_bytes command.now ≡ codes "run") × IsPath (string_bytes path.now)) }
{
    command.as_str() == "run" && path.as_bytes().first() != Some(&b'-')
}

/// Reads the words of a command line: the program's name, the command, the path, and options.
pub fn read_words(words: &[String]) -> Option<Asked>
    ensures { MatchOption result ((asked : AnyAsked) → IsRun (texts words.now) asked → ⊥)
        (λ asked. IsRun (texts words.now) asked) }
{
    if words.len() < 3 || !is_run(&words[1], &words[2]) {
        return None;
    }
    let (_, options) = words.split_at(3);
    read_options(Asked::nothing(), options)
}

/// Reads options behind those that were read.
fn read_options(asked: Asked, words: &[String]) -> Option<Asked>
    ensures { MatchOption result ((all : AnyAsked) → Follow asked (texts words.now) all → ⊥)
        (λ all. Follow asked (texts words.now) all) }
{
    if words.is_empty() {
        return Some(asked);
    }
    if words.len() < 2 {
        return None;
    }
    let Some(more) = asked.add(&words[0], &words[1]) else {
        return None;
    };
    let (_, rest) = words.split_at(2);
    read_options(more, rest)
}

/// The page size that `--page` asks for, in bytes, or 4096 where the words are no command line or have none.
/// A new file gets it; one that tells its own keeps that.
pub fn wanted_page(words: &[String]) -> u32
    ensures wanted { IsWanted (texts words.now) result }
    ensures size { is_page_size result ≡ true }
{
    let Some(asked) = read_words(words) else {
        return USUAL_PAGE;
    };
    asked.page.unwrap_or(USUAL_PAGE)
}
