//! The value that names a row in its table.

ghost use Rattle.std.specs.Prelude.{◌≡◌, ◌≢◌, IfOk, IfNone, IfSome};

use crate::Value;
use mg_base::Memory;
use std::alloc::Global;
use std::marker::Model;

/// The value that names a row in its table: any but NULL.
#[derive(Debug, Drop)]
pub struct Key {
    value: Value,
}

impl Model for Key {
    ghost use Rattle.std.specs.Prelude.{◌≢◌};
    ghost use Rattle.mg_value.specs.declared.value.Value.{Value as AnyValue};
    ghost use Rattle.mg_value.specs.declared.value.Value.TheVariants.{Null};

    ghost Value = { AnyValue };

    ghost view = { λ key. key.value };

    ghost invariant = { λ key. key.value ≢ Null };
}

impl Key {
    /// The key of this value: None exactly where it is NULL.
    pub fn new(value: Value) -> Option<Key>
        ensures none { IfNone result (value ≡ Value.Null) }
        ensures some { IfSome result (λ key. key ≡ value) }
        ensures not_null { IfSome result (λ key. value ≢ Value.Null) }
    {
        if value.is_null() {
            None
        } else {
            Some(Key { value })
        }
    }

    /// The key as a value.
    pub fn value(&self) -> &Value
        ensures value { result.now ≡ self.now }
        ensures not_null { self.now ≢ Value.Null }
    {
        &self.value
    }

    /// An equal key.
    ///
    /// # Errors
    ///
    /// `Memory` only.
    pub fn copy(&self, alloc: Global) -> Result<Key, Memory>
        ensures { IfOk result (λ key. key ≡ self.now) }
    {
        Ok(Key {
            value: self.value.copy(alloc)?,
        })
    }
}
