//! The shapes of tables as transactions see them.

ghost use Rattle.std.specs.Prelude.{◌≡◌, ◌≤◌, ◌<◌, ◌++◌, [], IfOk, OnOk, length};
ghost use Rattle.mg_model.specs.Answers.{catalog_of};
ghost use Rattle.mg_model.specs.Catalog.{column_key as column_key_of, columns_said, with_column};
ghost use Rattle.mg_plain.specs.Keeping.{told_in};
ghost use Rattle.mg_plain.specs.Kept.{kept};
ghost use Rattle.mg_plain.specs.Records.{shape_kept, FewColumns};

use crate::Plain;
use crate::keys::{column_in_row, column_key, count_said, table_key};
use crate::lookup::same_name;
use mg_base::Memory;
use mg_model::CATALOG;
use mg_value::{Column, Columns, Name, Shape};

impl Plain {
    /// The shape of a table that a transaction sees.
    ///
    /// Where a column's row names no column, as none does that `create_table` has made, it is told as
    /// want of memory.
    pub(crate) fn shape(&self, t: u32, name: &Name) -> Result<Option<Shape>, Memory>
        ensures shape { IfOk result (λ shape. shape ≡ shape_kept (kept self.now) t name.now) }
        ensures few { IfOk result FewColumns }
    {
        if same_name(name.as_slice(), CATALOG) {
            return Ok(None);
        }
        let key = table_key(self.alloc, name.as_slice())?;
        let Some(row) = self.seen_row(t, CATALOG, &key) else {
            return Ok(None);
        };
        let count = count_said(row);
        let columns = Columns::new(self.columns(t, name, count)?);
        Ok(Some(Shape {
            columns,
            key: self.key_among(t, name, count)? as u16,
        }))
    }

    /// So many columns of a table that a transaction sees.
    fn columns(&self, t: u32, table: &Name, count: u8) -> Result<Vec<Column>, Memory>
        requires { count ≤ 64 }
        ensures columns { IfOk result (λ columns. columns.items
            ≡ columns_said (catalog_of (told_in (kept self.now)) t) table.now 0 count) }
        ensures few { IfOk result (λ columns. length columns.items ≤ count) }
    {
        let mut columns = Vec::new(self.alloc);
        for place in 0..count {
            self.push_column(&mut columns, t, table, place)?;
        }
        Ok(columns)
    }

    /// Pushes the column at a place of a table, if the transaction sees a row that says it.
    fn push_column(
        &self,
        columns: &mut Vec<Column>,
        t: u32,
        table: &Name,
        place: u8,
    ) -> Result<(), Memory>
        requires { place < 64 }
        ensures { OnOk result (columns.new.items ≡ columns.old.items
            ++ with_column (catalog_of (told_in (kept self.now)) t (column_key_of table.now place)) []) }
    {
        let key = column_key(self.alloc, table.as_slice(), place)?;
        let Some(row) = self.seen_row(t, CATALOG, &key) else {
            return Ok(());
        };
        let Some(column) = column_in_row(row) else {
            return Err(Memory);
        };
        columns.push(column)?;
        Ok(())
    }
}
