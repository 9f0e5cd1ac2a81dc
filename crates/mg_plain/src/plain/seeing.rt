//! What a transaction sees, and who is in its way.

ghost use Rattle.std.specs.Prelude.{◌≡◌, ◌≤◌, ◌∷◌, [], IfOk, slice_index_or};
ghost use Rattle.std.specs.Option.{option_copied, option_map};
ghost use Rattle.mg_model.specs.Changes.{row_at, rows_of};
ghost use Rattle.mg_model.specs.Catalog.{shape_in, key_in, key_said, is_key_row as is_key_row_test};
ghost use Rattle.mg_model.specs.Answers.{can_hinder as can_hinder_test};
ghost use Rattle.mg_model.specs.Answers.{obstacle as obstacle_of, table_obstacle as table_obstacle_of, claim_obstacle as claim_obstacle_of};
ghost use Rattle.mg_model.specs.Answers.{changes_table as changes_table_test, least_by, least_from, is_open_other as is_open_other_test};
ghost use Rattle.mg_model.specs.Answers.{waits_on as waits_on_of, closes as closes_test};
ghost use Rattle.mg_model.specs.Answers.{has_row as has_row_test, has_table as has_table_test, catalog_of};
ghost use Rattle.mg_plain.specs.Keeping.{known_of, told_in, unknown as unknown_number};
ghost use Rattle.mg_plain.specs.Lookups.{change_at};
ghost use Rattle.mg_plain.specs.Kept.{kept};

use crate::Plain;
use crate::keys::{column_key, count_said, says_key, table_key};
use crate::known::Known;
use crate::lookup::{changes_key, changes_table, newest_change, own_change, same_name};
use crate::rows::{put_changes, put_steps};
use mg_base::{Memory, TxState};
use mg_model::{CATALOG, Change, Mode, Step};
use mg_value::{Name, Row, Value};
use std::alloc::Global;

impl Plain {
    /// What is known of a transaction.
    pub(crate) fn known(&self, t: u32) -> Known
        ensures { result ≡ known_of (kept self.now) t }
    {
        match self.known.get(t as usize) {
            Some(known) => *known,
            None => unknown(self.opened),
        }
    }

    /// The newest change of a key of a table that a transaction sees.
    pub(crate) fn seen_change(&self, t: u32, table: &[u8], key: &Value) -> Option<&Change>
        ensures { option_copied result
            ≡ change_at ((told_in (kept self.now)).view t) table.now key.now }
    {
        if let Some(change) = own_change(&self.steps, t, table, key) {
            return Some(change);
        }
        let newer = self.database.len().saturating_sub(self.known(t).base);
        let (_, base) = self.database.split_at(newer);
        newest_change(base, table, key)
    }

    /// The row that a transaction sees at a key of a table.
    pub(crate) fn seen_row(&self, t: u32, table: &[u8], key: &Value) -> Option<&Row>
        ensures { option_copied result ≡ row_at ((told_in (kept self.now)).view t) table.now key.now }
    {
        match self.seen_change(t, table, key) {
            Some(change) => change.row.as_ref(),
            None => None,
        }
    }

    /// Tells whether the changes of `u` can be in the way of `t`.
    pub(crate) fn can_hinder(&self, t: u32, u: u32) -> bool
        ensures { result ≡ can_hinder_test (told_in (kept self.now)) t u }
    {
        if u == t {
            return false;
        }
        let other = self.known(u);
        match other.state {
            TxState::Active => true,
            TxState::Limbo => true,
            TxState::Dead => false,
            TxState::Committed => other.place > self.known(t).saw,
        }
    }

    /// The obstacle of a key of a table for a transaction.
    pub(crate) fn obstacle(&self, t: u32, table: &[u8], key: &Value) -> Option<u32>
        ensures { result ≡ obstacle_of (told_in (kept self.now)) t table.now key.now }
    {
        for step in &self.steps {
            if self.can_hinder(t, step.by.0) && changes_key(&step.deed, table, key) {
                return Some(step.by.0);
            }
        }
        None
    }

    /// The transaction that another one waits on.
    pub(crate) fn waits_on(&self, t: u32) -> Option<u32>
        ensures { result ≡ waits_on_of (told_in (kept self.now)) t }
    {
        let on = self.known(t).waits?;
        match self.known(on.0).state {
            TxState::Active => Some(on.0),
            TxState::Limbo => None,
            TxState::Dead => None,
            TxState::Committed => None,
        }
    }

    /// Tells whether to wait on `u` would close a cycle for `t`.
    pub(crate) fn closes(&self, t: u32, u: u32) -> bool
        ensures { result ≡ closes_test (told_in (kept self.now)) t u }
    {
        let mut at = u;
        for _ in 0..self.known.len() {
            if at == t {
                return true;
            }
            match self.waits_on(at) {
                Some(next) => at = next,
                None => return false,
            }
        }
        at == t
    }

    /// The obstacle of a table's own row in the catalog for a transaction.
    pub(crate) fn table_obstacle(&self, t: u32, table: &Name) -> Result<Option<u32>, Memory>
        ensures { IfOk result (λ by. by ≡ table_obstacle_of (told_in (kept self.now)) t table.now) }
    {
        if same_name(table.as_slice(), CATALOG) {
            return Ok(None);
        }
        let key = table_key(self.alloc, table.as_slice())?;
        Ok(self.obstacle(t, CATALOG, &key))
    }

    /// The least other transaction that is active or in limbo and has changed a table.
    pub(crate) fn least_claimant(&self, t: u32, table: &Name) -> Option<u32>
        ensures { result ≡ least_by (is_open_other_test (told_in (kept self.now)) t)
            (changes_table_test table.now) (kept self.now).steps }
    {
        let mut least = None;
        let mut rest = self.steps.as_slice();
        while let Some((last, before)) = rest.split_last() {
            least = self.with_claimant(t, table, last, least);
            rest = before;
        }
        least
    }

    /// The lesser of a transaction and the one of a step, if that one counts.
    pub(crate) fn with_claimant(
        &self,
        t: u32,
        table: &Name,
        step: &Step,
        least: Option<u32>,
    ) -> Option<u32>
        ensures { result ≡ least_from (is_open_other_test (told_in (kept self.now)) t)
            (changes_table_test table.now) least (step.now ∷ []) }
    {
        let by = step.by.0;
        if !self.is_open_other(t, by) || !changes_table(&step.deed, table.as_slice()) {
            return least;
        }
        match least {
            Some(other) if other < by => Some(other),
            _ => Some(by),
        }
    }

    /// Tells whether `u` is another transaction than `t`, and active or in limbo.
    pub(crate) fn is_open_other(&self, t: u32, u: u32) -> bool
        ensures { result ≡ is_open_other_test (told_in (kept self.now)) t u }
    {
        if u == t {
            return false;
        }
        match self.known(u).state {
            TxState::Active => true,
            TxState::Limbo => true,
            TxState::Dead => false,
            TxState::Committed => false,
        }
    }

    /// The obstacle of a claim on a table for a transaction.
    pub(crate) fn claim_obstacle(&self, t: u32, table: &Name) -> Result<Option<u32>, Memory>
        ensures { IfOk result (λ by. by ≡ claim_obstacle_of (told_in (kept self.now)) t table.now) }
    {
        match self.table_obstacle(t, table)? {
            Some(by) => Ok(Some(by)),
            None => Ok(self.least_claimant(t, table)),
        }
    }

    /// Tells whether a transaction sees a table.
    pub(crate) fn has_table(&self, t: u32, table: &Name) -> Result<bool, Memory>
        ensures { IfOk result (λ has. has ≡ has_table_test (told_in (kept self.now)) t table.now) }
    {
        if same_name(table.as_slice(), CATALOG) {
            return Ok(true);
        }
        let key = table_key(self.alloc, table.as_slice())?;
        Ok(self.seen_row(t, CATALOG, &key).is_some())
    }

    /// The place of a table's primary key, as a transaction sees the table.
    pub(crate) fn key_place(&self, t: u32, table: &Name) -> Result<Option<usize>, Memory>
        ensures { IfOk result (λ place. place
            ≡ option_map (λ shape. shape.key)
            (shape_in (catalog_of (told_in (kept self.now)) t) table.now)) }
    {
        if same_name(table.as_slice(), CATALOG) {
            return Ok(Some(0));
        }
        let key = table_key(self.alloc, table.as_slice())?;
        match self.seen_row(t, CATALOG, &key) {
            Some(row) => Ok(Some(self.key_among(t, table, count_said(row))?)),
            None => Ok(None),
        }
    }

    /// The place of the primary key among so many columns of a table, 0 where none is the key.
    pub(crate) fn key_among(&self, t: u32, table: &Name, count: u8) -> Result<usize, Memory>
        requires { count ≤ 64 }
        ensures { IfOk result (λ place. place
            ≡ key_said (catalog_of (told_in (kept self.now)) t) table.now 0 count) }
    {
        for place in 0..count {
            let key = column_key(self.alloc, table.as_slice(), place)?;
            if self.is_key_row(t, &key) {
                return Ok(place as usize);
            }
        }
        Ok(0)
    }

    /// Tells whether a transaction sees a row of the catalog that says a primary key's column.
    pub(crate) fn is_key_row(&self, t: u32, key: &Value) -> bool
        ensures { result
            ≡ is_key_row_test (catalog_of (told_in (kept self.now)) t key.now) }
    {
        match self.seen_row(t, CATALOG, key) {
            Some(row) => says_key(row),
            None => false,
        }
    }

    /// The key of a row that is made in a table.
    pub(crate) fn key_of(&self, t: u32, table: &Name, row: &Row) -> Result<Value, Memory>
        ensures { IfOk result (λ key. key
            ≡ key_in (catalog_of (told_in (kept self.now)) t) table.now row.now) }
    {
        match self.key_place(t, table)? {
            Some(place) => Ok(value_at(self.alloc, row, place)?),
            None => Ok(Value::Null),
        }
    }

    /// The rows of a table that a transaction sees, in key order.
    pub(crate) fn seen_rows(&self, t: u32, table: &Name) -> Result<Vec<(Value, Row)>, Memory>
        ensures { IfOk result (λ rows. rows.items
            ≡ rows_of ((told_in (kept self.now)).view t) table.now) }
    {
        let mut rows = Vec::new(self.alloc);
        let newer = self.database.len().saturating_sub(self.known(t).base);
        let (_, base) = self.database.split_at(newer);
        put_changes(self.alloc, &mut rows, base, table.as_slice())?;
        put_steps(self.alloc, &mut rows, &self.steps, t, table.as_slice())?;
        Ok(rows)
    }

    /// Tells whether a transaction sees a row with a key.
    pub(crate) fn has_row(&self, t: u32, table: &Name, key: &Value) -> bool
        ensures { result ≡ has_row_test (told_in (kept self.now)) t table.now key.now }
    {
        self.seen_row(t, table.as_slice(), key).is_some()
    }
}

/// The value at a place of a row, NULL past its end.
pub(crate) fn value_at(alloc: Global, row: &Row, place: usize) -> Result<Value, Memory>
    ensures { IfOk result (λ value. value ≡ slice_index_or row.now place Value.Null) }
{
    match row.as_slice().get(place) {
        Some(value) => value.copy(alloc),
        None => Ok(Value::Null),
    }
}

/// What is known of a number that was not drawn.
pub(crate) fn unknown(opened: usize) -> Known
    ensures { result ≡ unknown_number opened }
{
    Known {
        state: TxState::Dead,
        mode: Mode {
            read_only: true,
            wait: false,
            snapshot: true,
        },
        base: opened,
        saw: 0,
        place: 0,
        waits: None,
    }
}
