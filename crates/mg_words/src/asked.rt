//! What a command line asks for.

ghost use Rattle.std.specs.Prelude.{◌≡◌, MatchOption, string_bytes};
ghost use Rattle.mg_words.specs.Words.{Adds, given as given_in, nothing, with_number};
ghost use Rattle.mg_words.specs.declared.asked.Asked.{Asked as AnyAsked};

use crate::number::unsigned;
use crate::switch::Switch;

/// What the options of a command line ask for.
#[derive(Clone, Copy, Debug, PartialEq, Eq)]
pub struct Asked {
    /// The page size of a new file, in bytes.
    pub page: Option<u32>,
    /// How many pages the file may have.
    pub limit: Option<u32>,
    /// How many page writes pass.
    pub stop: Option<u32>,
}

impl Asked {
    /// No option is given.
    pub(crate) fn nothing() -> Asked
        ensures { result ≡ nothing }
    {
        Asked {
            page: None,
            limit: None,
            stop: None,
        }
    }

    /// The number that was given with an option.
    fn given(self, switch: Switch) -> Option<u32>
        ensures { result ≡ given_in switch self }
    {
        match switch {
            Switch::Page => self.page,
            Switch::Limit => self.limit,
            Switch::Stop => self.stop,
        }
    }

    /// The option is given with this number.
    fn with(self, switch: Switch, number: u32) -> Asked
        ensures { result ≡ with_number switch number self }
    {
        let number = Some(number);
        match switch {
            Switch::Page => Asked {
                page: number,
                ..self
            },
            Switch::Limit => Asked {
                limit: number,
                ..self
            },
            Switch::Stop => Asked {
                stop: number,
                ..self
            },
        }
    }

    /// Reads an option and its number. None where the word is no option, or one that was given already, or the
    /// number is none that it may have.
    pub(crate) fn add(self, name: &String, word: &String) -> Option<Asked>
        ensures { MatchOption result
            ((all : AnyAsked) → Adds self (string_bytes name.now) (string_bytes word.now) all → ⊥)
            (λ all. Adds self (string_bytes name.now) (string_bytes word.now) all) }
    {
        let Some(switch) = Switch::of(name.as_str()) else {
            return None;
        };
        let Some(number) = unsigned(word.as_bytes()) else {
            return None;
        };
        if self.given(switch).is_some() {
            return None;
        }
        if !switch.may_have(number) {
            return None;
        }
        Some(self.with(switch, number))
    }
}
