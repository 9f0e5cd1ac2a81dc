//! Why an expression could not be evaluated.

ghost use Rattle.std.specs.Prelude.{◌≡◌};
ghost use Rattle.mg_expr.specs.declared.fault.EvalFault.TheVariants as faults;

use mg_base::Memory;
use std::fmt;

/// Why an expression could not be evaluated.
#[derive(Clone, Copy, Debug, PartialEq, Eq)]
pub enum EvalFault {
    /// A result leaves 64 bits, or a divisor is 0.
    Arithmetic,
    Memory,
}

impl From<Memory> for EvalFault {
    ghost from_gives = { λ _ fault. fault ≡ faults.Memory };

    fn from(_: Memory) -> Self {
        EvalFault::Memory
    }
}

impl fmt::Display for EvalFault {
    fn fmt<W: fmt::Write>(&self, f: &mut fmt::Formatter<W>) -> fmt::Result {
        match self {
            EvalFault::Arithmetic => f.write_str("ARITHMETIC"),
            EvalFault::Memory => f.write_str("OUT OF MEMORY"),
        }
    }
}
