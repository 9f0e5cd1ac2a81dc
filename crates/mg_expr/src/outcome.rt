//! What an expression says, as a value of the program.

ghost use Rattle.std.specs.Prelude.{◌≡◌, Some};
ghost use Rattle.mg_expr.specs.Meaning.{value_in, truth_in};
ghost use Rattle.mg_expr.specs.Outcomes.{said_by};

use mg_value::{Truth, Value};

/// What an expression says of a row.
#[derive(Drop)]
pub enum Outcome {
    Value(Value),
    Truth(Truth),
}

impl Outcome {
    /// The value; NULL for a truth.
    pub fn into_value(self) -> Value
        ensures { value_in (said_by self) ≡ Some result }
    {
        match self {
            Outcome::Value(value) => value,
            Outcome::Truth(_) => Value::Null,
        }
    }

    /// The truth; unknown for a value.
    pub fn into_truth(self) -> Truth
        ensures { truth_in (said_by self) ≡ Some result }
    {
        match self {
            Outcome::Value(_) => Truth::Unknown,
            Outcome::Truth(truth) => truth,
        }
    }
}
