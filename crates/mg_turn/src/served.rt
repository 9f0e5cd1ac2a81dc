//! A value that answers calls, and the ends of transactions that its answers tell.

ghost use Rattle.std.specs.Prelude.{ℕ};

/// How a transaction ended.
#[derive(Clone, Copy, Debug, PartialEq, Eq)]
pub enum End {
    /// What it did is part of the database.
    Committed,
    /// Nothing of it stays.
    Dead,
    /// It is prepared: only a decision from outside ends it.
    Limbo,
}

/// A value that answers calls, one after another.
pub trait Served {
    ghost use Rattle.mg_turn.specs.declared.served.End.{End};

    type Call;

    type Reply;

    /// What it answers: of the value before, the call, the reply and the value after.
    ghost answers: { Self → Self.Call → Self.Reply → Self → Type 0 };

    /// Which ends of which transactions a call with its reply tells.
    ghost ends: { Self.Call → Self.Reply → ℕ → End → Type 0 };

    /// Answers one call.
    fn serve(&mut self, call: Self::Call) -> Self::Reply
        ensures { answers self.old call result self.new };
}
