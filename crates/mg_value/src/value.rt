//! A value of a column.

ghost use Rattle.std.specs.Prelude.{◌≡◌, ◌↔◌, IsTrue, IfOk};

use crate::Txt;
use mg_base::Memory;
use std::alloc::Global;

/// A value of a column.
#[derive(Debug, Drop)]
pub enum Value {
    Null,
    Int(i64),
    Text(Txt),
}

impl Value {
    /// Tells whether it is NULL.
    pub fn is_null(&self) -> bool
        ensures { IsTrue result ↔ (self.now ≡ Value.Null) }
    {
        matches!(self, Value::Null)
    }

    /// An equal value.
    ///
    /// # Errors
    ///
    /// `Memory` only.
    pub fn copy(&self, alloc: Global) -> Result<Value, Memory>
        ensures { IfOk result (λ value. value ≡ self.now) }
    {
        match self {
            Value::Null => Ok(Value::Null),
            Value::Int(number) => Ok(Value::Int(*number)),
            Value::Text(text) => Ok(Value::Text(text.copy(alloc)?)),
        }
    }
}
