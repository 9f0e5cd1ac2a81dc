//! The words that name a command, and what `gfix` does.

ghost use Rattle.std.specs.Prelude.{◌≡◌, ◌≢◌, MatchOption};
ghost use Rattle.mg_commands.specs.CommandLine.{care_spelled, command_spelled, is_decision as is_decision_word};
ghost use Rattle.mg_commands.specs.declared.word.CareWord.{CareWord as AnyCareWord};
ghost use Rattle.mg_commands.specs.declared.word.CommandWord.{CommandWord as AnyCommandWord};

/// A word that names a command.
#[derive(Clone, Copy, Debug, PartialEq, Eq)]
pub enum CommandWord {
    Run,
    Storm,
    Load,
    Stat,
    Fix,
}

impl CommandWord {
    /// The command that a word names, if it names one.
    pub fn of(word: &str) -> Option<CommandWord>
        ensures { MatchOption result ((command : AnyCommandWord) → word.now ≢ command_spelled command)
            (λ command. word.now ≡ command_spelled command) }
    {
        if word == "run" {
            return Some(CommandWord::Run);
        }
        if word == "storm" {
            return Some(CommandWord::Storm);
        }
        if word == "load" {
            return Some(CommandWord::Load);
        }
        if word == "gstat" {
            return Some(CommandWord::Stat);
        }
        if word == "gfix" {
            return Some(CommandWord::Fix);
        }
        None
    }
}

/// A word that says what `gfix` does.
#[derive(Clone, Copy, Debug, PartialEq, Eq)]
pub enum CareWord {
    Validate,
    ListLimbo,
    Commit,
    Rollback,
    Sweep,
}

impl CareWord {
    /// What a word says, if it says anything.
    pub fn of(word: &str) -> Option<CareWord>
        ensures { MatchOption result ((care : AnyCareWord) → word.now ≢ care_spelled care)
            (λ care. word.now ≡ care_spelled care) }
    {
        if word == "validate" {
            return Some(CareWord::Validate);
        }
        if word == "list" {
            return Some(CareWord::ListLimbo);
        }
        if word == "commit" {
            return Some(CareWord::Commit);
        }
        if word == "rollback" {
            return Some(CareWord::Rollback);
        }
        if word == "sweep" {
            return Some(CareWord::Sweep);
        }
        None
    }

    /// Tells whether the number of a transaction comes behind it.
    pub(crate) fn is_decision(self) -> bool
        ensures { result ≡ is_decision_word self }
    {
        match self {
            CareWord::Commit | CareWord::Rollback => true,
            CareWord::Validate | CareWord::ListLimbo | CareWord::Sweep => false,
        }
    }
}
