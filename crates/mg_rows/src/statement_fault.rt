//! Why a statement is refused.

ghost use Rattle.std.specs.Prelude.{◌≡◌};
ghost use Rattle.mg_rows.specs.Faults.{of_sql, of_plan, of_eval, of_new_row};
ghost use Rattle.mg_rows.specs.declared.statement_fault.StatementFault.TheVariants as faults;
ghost use Rattle.mg_model.specs.declared.refusal.Refusal.TheVariants as refusals;

use crate::NewRowFault;
use mg_base::Memory;
use mg_expr::EvalFault;
use mg_model::Refusal;
use mg_plan::PlanFault;
use mg_statements::SqlFault;
use std::fmt;

/// Why a statement is refused: what it is tested for itself, and what the machine refuses its
/// events for. `Display` gives the printed text.
#[derive(Clone, Copy, Debug, PartialEq, Eq)]
pub enum StatementFault {
    /// An event of the statement is refused.
    Engine(Refusal),
    /// No statement can go on with the token that begins at this byte.
    Syntax { at: u32 },
    NameTooLong { at: u32 },
    NumberTooLarge { at: u32 },
    TooDeep { at: u32 },
    NoColumn,
    TypeMismatch,
    /// A result that is evaluated leaves 64 bits, or a divisor is 0.
    Arithmetic,
    NullNotAllowed,
    /// Both numbers are in bytes.
    TextTooLong { len: u32, most: u32 },
    /// An UPDATE sets the primary key.
    KeyChange,
    TooMany { limit: u32 },
    /// Both numbers are in bytes.
    KeyTooLong { len: u32, limit: u32 },
    NoSavepoint,
    /// The session has a statement that is held or waits.
    Busy,
    ColumnExists,
    /// SET TRANSACTION where a transaction is live.
    InTransaction,
    OneKey,
    CountMismatch,
    /// The session holds no statement that could go on.
    NothingHeld,
}

impl From<Memory> for StatementFault {
    ghost from_gives = { λ _ fault. fault ≡ faults.Engine refusals.Memory };

    fn from(_: Memory) -> Self {
        StatementFault::Engine(Refusal::Memory)
    }
}

impl From<Refusal> for StatementFault {
    ghost from_gives = { λ refusal fault. fault ≡ faults.Engine refusal };

    fn from(refusal: Refusal) -> Self {
        StatementFault::Engine(refusal)
    }
}

impl From<SqlFault> for StatementFault {
    ghost from_gives = { λ lower fault. fault ≡ of_sql lower };

    fn from(lower: SqlFault) -> Self {
        match lower {
            SqlFault::Syntax { at } => StatementFault::Syntax { at },
            SqlFault::NameTooLong { at } => StatementFault::NameTooLong { at },
            SqlFault::NumberTooLarge { at } => StatementFault::NumberTooLarge { at },
            SqlFault::TooDeep { at } => StatementFault::TooDeep { at },
            SqlFault::Memory => StatementFault::Engine(Refusal::Memory),
        }
    }
}

impl From<PlanFault> for StatementFault {
    ghost from_gives = { λ lower fault. fault ≡ of_plan lower };

    fn from(lower: PlanFault) -> Self {
        match lower {
            PlanFault::ColumnExists => StatementFault::ColumnExists,
            PlanFault::TooMany { limit } => StatementFault::TooMany { limit },
            PlanFault::NoColumn => StatementFault::NoColumn,
            PlanFault::OneKey => StatementFault::OneKey,
            PlanFault::CountMismatch => StatementFault::CountMismatch,
            PlanFault::KeyChange => StatementFault::KeyChange,
            PlanFault::TypeMismatch => StatementFault::TypeMismatch,
            PlanFault::RowTooLong { len, limit } => {
                StatementFault::Engine(Refusal::RowTooLong { len, limit })
            }
            PlanFault::KeyTooLong { len, limit } => StatementFault::KeyTooLong { len, limit },
            PlanFault::Memory => StatementFault::Engine(Refusal::Memory),
        }
    }
}

impl From<EvalFault> for StatementFault {
    ghost from_gives = { λ lower fault. fault ≡ of_eval lower };

    fn from(lower: EvalFault) -> Self {
        match lower {
            EvalFault::Arithmetic => StatementFault::Arithmetic,
            EvalFault::Memory => StatementFault::Engine(Refusal::Memory),
        }
    }
}

impl From<NewRowFault> for StatementFault {
    ghost from_gives = { λ lower fault. fault ≡ of_new_row lower };

    fn from(lower: NewRowFault) -> Self {
        match lower {
            NewRowFault::Arithmetic => StatementFault::Arithmetic,
            NewRowFault::NullNotAllowed => StatementFault::NullNotAllowed,
            NewRowFault::TextTooLong { len, most } => StatementFault::TextTooLong { len, most },
            NewRowFault::Memory => StatementFault::Engine(Refusal::Memory),
        }
    }
}

impl StatementFault {
    /// What is printed of it in front of its numbers, or of the machine's refusal.
    fn text(&self) -> &'static str {
        match self {
            StatementFault::Engine(_) => "",
            StatementFault::Syntax { .. } => "SYNTAX",
            StatementFault::NameTooLong { .. } => "NAME TOO LONG",
            StatementFault::NumberTooLarge { .. } => "NUMBER TOO LARGE",
            StatementFault::TooDeep { .. } => "TOO DEEP",
            StatementFault::NoColumn => "NO COLUMN",
            StatementFault::TypeMismatch => "TYPE MISMATCH",
            StatementFault::Arithmetic => "ARITHMETIC",
            StatementFault::NullNotAllowed => "NULL NOT ALLOWED",
            StatementFault::TextTooLong { .. } => "TEXT TOO LONG",
            StatementFault::KeyChange => "KEY CHANGE",
            StatementFault::TooMany { .. } => "TOO MANY",
            StatementFault::KeyTooLong { .. } => "KEY TOO LONG",
            StatementFault::NoSavepoint => "NO SAVEPOINT",
            StatementFault::Busy => "BUSY",
            StatementFault::ColumnExists => "COLUMN EXISTS",
            StatementFault::InTransaction => "IN TRANSACTION",
            StatementFault::OneKey => "ONE KEY",
            StatementFault::CountMismatch => "COUNT MISMATCH",
            StatementFault::NothingHeld => "NOTHING HELD",
        }
    }
}

impl fmt::Display for StatementFault {
    fn fmt<W: fmt::Write>(&self, f: &mut fmt::Formatter<W>) -> fmt::Result {
        f.write_str(self.text())?;
        match self {
            StatementFault::Engine(refusal) => write!(f, "{refusal}"),
            StatementFault::Syntax { at }
            | StatementFault::NameTooLong { at }
            | StatementFault::NumberTooLarge { at }
            | StatementFault::TooDeep { at } => write!(f, " AT {at}"),
            StatementFault::TextTooLong { len, most: limit }
            | StatementFault::KeyTooLong { len, limit } => write!(f, " {len} LIMIT {limit}"),
            StatementFault::TooMany { limit } => write!(f, " LIMIT {limit}"),
            StatementFault::NoColumn
            | StatementFault::TypeMismatch
            | StatementFault::Arithmetic
            | StatementFault::NullNotAllowed
            | StatementFault::KeyChange
            | StatementFault::NoSavepoint
            | StatementFault::Busy
            | StatementFault::ColumnExists
            | StatementFault::InTransaction
            | StatementFault::OneKey
            | StatementFault::CountMismatch
            | StatementFault::NothingHeld => Ok(()),
        }
    }
}
