//! The options of a command line.

ghost use Rattle.std.specs.Prelude.{◌≡◌, ◌≢◌, MatchOption};
ghost use Rattle.mg_words.specs.Words.{may_have as may_have_number, spelled};
ghost use Rattle.mg_words.specs.declared.switch.Switch.{Switch as AnySwitch};

use mg_base::{GREATEST_LIMIT, LEAST_LIMIT, is_page_size};

/// An option of a command line, which stands before its number.
#[derive(Clone, Copy, Debug, PartialEq, Eq)]
pub(crate) enum Switch {
    /// The page size of a new file, in bytes.
    Page,
    /// How many pages the file may have.
    Limit,
    /// How many page writes pass.
    Stop,
}

impl Switch {
    /// The option that a word spells, if it spells one.
    pub(crate) fn of(word: &str) -> Option<Switch>
        ensures { MatchOption result ((switch : AnySwitch) → word.now ≢ spelled switch)
            (λ switch. word.now ≡ spelled switch) }
    {
        if word == "--page" {
            return Some(Switch::Page);
        }
        if word == "--limit" {
            return Some(Switch::Limit);
        }
        if word == "--stop" {
            return Some(Switch::Stop);
        }
        None
    }

    /// Tells whether the option may have this number.
    pub(crate) fn may_have(self, number: u32) -> bool
        ensures { result ≡ may_have_number self number }
    {
        match self {
            Switch::Page => is_page_size(number),
            Switch::Limit => !(number < LEAST_LIMIT) && !(GREATEST_LIMIT < number),
            Switch::Stop => true,
        }
    }
}
