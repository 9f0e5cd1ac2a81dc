//! The answer to an event.

ghost use Rattle.std.specs.Prelude.{◌≡◌};

use crate::Refusal;
use mg_base::TxNo;
use mg_value::Row;
use std::marker::Model;

/// A list of rows.
#[derive(Debug, Drop)]
pub struct Rows {
    items: Vec<Row>,
}

impl Model for Rows {
    ghost use Rattle.std.specs.Prelude.{List};
    ghost use Rattle.mg_value.specs.declared.value.Value.{Value as AnyValue};

    ghost Value = { List (List AnyValue) };

    ghost view = { λ rows. rows.items.items };
}

impl Rows {
    /// The list of these rows. It takes no memory.
    pub fn new(items: Vec<Row>) -> Rows
        ensures { result ≡ items.items }
    {
        Rows { items }
    }

    /// The rows, in their order.
    pub fn as_slice(&self) -> &[Row]
        ensures { result.now ≡ self.now }
    {
        &self.items
    }
}

/// What an event is answered.
#[derive(Debug, Drop)]
pub enum Answer {
    /// It took effect, and there is nothing to tell.
    Fine,
    /// A transaction began, with this number.
    Tx(TxNo),
    /// The rows that were found, in key order.
    Rows(Rows),
    /// It was refused, and took no effect.
    No(Refusal),
}
