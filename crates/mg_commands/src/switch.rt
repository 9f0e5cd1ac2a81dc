//! The options of a command line.

ghost use Rattle.std.specs.Prelude.{◌≡◌, ◌≢◌, ℕ, MatchOption, string_bytes, true};
ghost use Rattle.mg_commands.specs.CommandLine.{Gives, every_option, is_left as is_left_in, may_have as may_have_number, spelled, stop_alone, storm_options, without as without_option};
ghost use Rattle.mg_commands.specs.declared.switch.Switch.{Switch as AnySwitch};

use mg_base::{GREATEST_LIMIT, LEAST_LIMIT, is_page_size};
use mg_words::unsigned;

/// An option of a command line, which stands before its number.
#[derive(Clone, Copy, Debug, PartialEq, Eq)]
pub(crate) enum Switch {
    /// The page size of a new file, in bytes.
    Page,
    /// How many pages the file may have.
    Limit,
    /// How many page writes pass.
    Stop,
}

impl Switch {
    /// The option that a word spells, if it spells one.
    pub(crate) fn of(word: &str) -> Option<Switch>
        ensures { MatchOption result ((switch : AnySwitch) → word.now ≢ spelled switch)
            (λ switch. word.now ≡ spelled switch) }
    {
        if word == "--page" {
            return Some(Switch::Page);
        }
        if word == "--limit" {
            return Some(Switch::Limit);
        }
        if word == "--stop" {
            return Some(Switch::Stop);
        }
        None
    }

    /// Tells whether the option may have this number.
    pub(crate) fn may_have(self, number: u32) -> bool
        ensures { result ≡ may_have_number self number }
    {
        match self {
            Switch::Page => is_page_size(number),
            Switch::Limit => !(number < LEAST_LIMIT) && !(GREATEST_LIMIT < number),
            Switch::Stop => true,
        }
    }
}

/// The options that may still come.
#[derive(Clone, Copy, Debug, PartialEq, Eq)]
pub(crate) struct Switches {
    pub page: bool,
    pub limit: bool,
    pub stop: bool,
}

impl Switches {
    /// Each option may come.
    pub(crate) fn every() -> Switches
        ensures { result ≡ every_option }
    {
        Switches {
            page: true,
            limit: true,
            stop: true,
        }
    }

    /// Those of `storm`.
    pub(crate) fn of_storm() -> Switches
        ensures { result ≡ storm_options }
    {
        Switches {
            page: true,
            limit: true,
            stop: false,
        }
    }

    /// `--stop` alone.
    pub(crate) fn stop_alone() -> Switches
        ensures { result ≡ stop_alone }
    {
        Switches {
            page: false,
            limit: false,
            stop: true,
        }
    }

    /// Tells whether the option may still come.
    fn is_left(self, switch: Switch) -> bool
        ensures { result ≡ is_left_in switch self }
    {
        match switch {
            Switch::Page => self.page,
            Switch::Limit => self.limit,
            Switch::Stop => self.stop,
        }
    }

    /// The option has come.
    pub(crate) fn without(self, switch: Switch) -> Switches
        ensures { result ≡ without_option switch self }
    {
        match switch {
            Switch::Page => Switches {
                page: false,
                ..self
            },
            Switch::Limit => Switches {
                limit: false,
                ..self
            },
            Switch::Stop => Switches {
                stop: false,
                ..self
            },
        }
    }

    /// The option that two words give: its name, and a number that it may have.
    pub(crate) fn given_by(self, name: &String, word: &String) -> Option<Switch>
        ensures { MatchOption result
            ((switch : AnySwitch) (number : ℕ) → Gives self (string_bytes name.now)
            (string_bytes word.now) switch number → ⊥)
            (λ switch. (number : ℕ) × Gives self (string_bytes name.now)
            (string_bytes word.now) switch number) }
    {
        let Some(switch) = Switch::of(name.as_str()) else {
            return None;
        };
        if !self.is_left(switch) {
            return None;
        }
        let Some(number) = unsigned(word.as_bytes()) else {
            return None;
        };
        if !switch.may_have(number) {
            return None;
        }
        Some(switch)
    }
}
