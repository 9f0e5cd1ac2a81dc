//! The shape of a table: its columns, and the length of its rows.

ghost use Rattle.std.specs.Prelude.{◌≡◌, All, ◌^◌, ◌<◌, ◌≤◌, IfOk, length, take};
ghost use Rattle.mg_value.specs.Rows.{width_of, row_len_of};

use crate::Name;
use mg_base::Memory;
use std::alloc::Global;
use std::marker::Model;

/// A table has at most this many columns.
pub const MOST_COLUMNS: usize = 64;

/// A BIGINT takes this many bytes in a row.
pub const NUMBER_WIDTH: usize = 8;

/// A value takes at most this many bytes in a row: 2 for the length of a text, and the text.
pub const GREATEST_WIDTH: usize = 65_537;

// The limits, written once more: a slip in one of them is refused.
const _: () = prove!(MOST_COLUMNS == 64);

const _: () = prove!(NUMBER_WIDTH == 8);

/// The kind of a column.
#[derive(Clone, Copy, Debug, PartialEq, Eq)]
pub enum Kind {
    /// BIGINT.
    Int,
    /// VARCHAR of at most this many bytes.
    Text(u16),
}

impl Kind {
    /// How many bytes a value of the kind takes in a row.
    pub fn width(self) -> usize
        ensures width { result ≡ width_of self }
        ensures most { result ≤ GREATEST_WIDTH }
    {
        match self {
            Kind::Int => NUMBER_WIDTH,
            Kind::Text(most) => 2 + most as usize,
        }
    }
}

/// A column of a table.
#[derive(Clone, Copy, Debug)]
pub struct Column {
    pub name: Name,
    pub kind: Kind,
    pub not_null: bool,
    /// The first format of the table that has the column.
    pub since: u16,
}

/// A list of columns.
#[derive(Debug, Drop)]
pub struct Columns {
    items: Vec<Column>,
}

impl Model for Columns {
    ghost use Rattle.std.specs.Prelude.{List};
    ghost use Rattle.mg_value.specs.declared.shape.Column.{Column as AnyColumn};

    ghost Value = { List AnyColumn };

    ghost view = { λ columns. columns.items.items };
}

impl Columns {
    /// The list of these columns. It takes no memory.
    pub fn new(items: Vec<Column>) -> Columns
        ensures { result ≡ items.items }
    {
        Columns { items }
    }

    /// The columns in their order.
    pub fn as_slice(&self) -> &[Column]
        ensures { result.now ≡ self.now }
    {
        &self.items
    }

    /// An equal list.
    ///
    /// # Errors
    ///
    /// `Memory` only.
    pub fn copy(&self, alloc: Global) -> Result<Columns, Memory>
        ensures { IfOk result (λ columns. columns ≡ self.now) }
    {
        Ok(Columns {
            items: self.items.as_slice().to_vec(alloc)?,
        })
    }
}

/// The shape of a table.
#[derive(Debug, Drop)]
pub struct Shape {
    pub columns: Columns,
    /// The place of the primary key among the columns.
    pub key: u16,
}

impl Shape {
    /// An equal shape.
    ///
    /// # Errors
    ///
    /// `Memory` only.
    pub fn copy(&self, alloc: Global) -> Result<Shape, Memory>
        ensures { IfOk result (λ shape. shape ≡ self.now) }
    {
        Ok(Shape {
            columns: self.columns.copy(alloc)?,
            key: self.key,
        })
    }
}

/// How many bytes a row of these columns has.
pub fn columns_len(columns: &[Column]) -> usize
    requires { length columns.now ≤ MOST_COLUMNS }
    ensures len { result ≡ row_len_of columns.now }
    ensures most { result < 2 ^ 32 }
    ensures kinds { All (λ column. width_of column.kind ≤ GREATEST_WIDTH) columns.now }
{
    let mut len = columns.len().div_ceil(8);
    for column in columns {
        len += column.kind.width();
    }
    len
}

/// How many bytes a row of the shape has, in the format that has all its columns.
pub fn row_len(s: &Shape) -> u32
    requires { length s.now.columns ≤ MOST_COLUMNS }
    ensures { result ≡ row_len_of s.now.columns }
{
    columns_len(s.columns.as_slice()) as u32
}
