//! Statements that are bound, and the refusal of each that is not.

use super::cases::{Case, hold_each};
use super::shapes::{Told, table_of};
use super::texts::statement_of;
use mg_expr::Expr;
use mg_model::Table;
use mg_plan::{Bound, PlanFault, bind};
use mg_statements::{Statement, let_go};
use mg_value::{Kind, MOST_COLUMNS};
use std::alloc::Global;
use std::test::Fail;

/// KV (K BIGINT PRIMARY KEY, V BIGINT, T VARCHAR(3)).
const KV: &[Told] = &[
    (b"K", Kind::Int, true),
    (b"V", Kind::Int, false),
    (b"T", Kind::Text(3), false),
];

/// Binds a statement to the table, for pages of so many bytes.
fn bind_to(alloc: Global, table: &Table, s: &Statement) -> Result<Bound, PlanFault> {
    if table.shape.columns.as_slice().len() > MOST_COLUMNS {
        return Err(PlanFault::Memory);
    }
    bind(alloc, s, Some(table), 4096)
}

/// Binds a statement without a table.
fn bind_alone(alloc: Global, s: &Statement, size: u32) -> Result<Bound, PlanFault> {
    bind(alloc, s, None, size)
}

/// The refusal of a statement.
fn refusal_in(bound: Result<Bound, PlanFault>) -> Option<PlanFault> {
    match bound {
        Ok(bound) => {
            mg_plan::let_go(bound);
            None
        }
        Err(fault) => Some(fault),
    }
}

/// The refusal of a statement of the table.
fn refusal_of(alloc: Global, s: &Statement) -> Result<Option<PlanFault>, Fail> {
    let table = table_of(alloc, b"KV", KV)?;
    Ok(refusal_in(bind_to(alloc, &table, s)))
}

/// A statement of the table, and its refusal.
struct Refused(&'static [u8], Option<PlanFault>);

impl Case for Refused {
    fn holds(&self, alloc: Global) -> Result<bool, Fail> {
        let statement = statement_of(alloc, self.0)?;
        let refusal = refusal_of(alloc, &statement);
        let_go(statement);
        Ok(refusal? == self.1)
    }
}

const REFUSALS: &[Refused] = &[
    Refused(b"SELECT X FROM KV", Some(PlanFault::NoColumn)),
    Refused(b"SELECT K = 1 FROM KV", Some(PlanFault::TypeMismatch)),
    Refused(b"SELECT * FROM KV ORDER BY X", Some(PlanFault::NoColumn)),
    Refused(b"SELECT SUM(T) FROM KV", Some(PlanFault::TypeMismatch)),
    Refused(b"SELECT SUM(NULL), COUNT(*) FROM KV WHERE T > 'a'", None),
    Refused(b"SELECT K, K FROM KV WHERE V IS NULL ORDER BY V", None),
    Refused(b"UPDATE KV SET X = 1, X = 2", Some(PlanFault::ColumnExists)),
    Refused(b"UPDATE KV SET K = X", Some(PlanFault::NoColumn)),
    Refused(b"UPDATE KV SET K = 'a'", Some(PlanFault::KeyChange)),
    Refused(b"UPDATE KV SET V = 'a'", Some(PlanFault::TypeMismatch)),
    Refused(b"UPDATE KV SET V = NULL, T = NULL WHERE K = V / 2", None),
    Refused(b"DELETE FROM KV WHERE K", Some(PlanFault::TypeMismatch)),
    Refused(
        b"INSERT INTO KV (K, K) VALUES (1)",
        Some(PlanFault::ColumnExists),
    ),
    Refused(
        b"INSERT INTO KV (K) VALUES (1, 2)",
        Some(PlanFault::CountMismatch),
    ),
    Refused(b"INSERT INTO KV VALUES (V, 1)", Some(PlanFault::NoColumn)),
    Refused(
        b"INSERT INTO KV VALUES ('a', 1, NULL)",
        Some(PlanFault::TypeMismatch),
    ),
    Refused(b"INSERT INTO KV (T, K) VALUES ('abcd', -7 / 2)", None),
];

#[test]
fn the_first_refusal_in_the_order_of_tests_stands(rt: HostRuntime) -> Result<(), Fail> {
    hold_each(&rt, rt.alloc(), REFUSALS)
}

/// A new table, how many bytes a page has, and its refusal.
struct New(&'static [u8], u32, Option<PlanFault>);

impl Case for New {
    fn holds(&self, alloc: Global) -> Result<bool, Fail> {
        let statement = statement_of(alloc, self.0)?;
        let refusal = refusal_in(bind_alone(alloc, &statement, self.1));
        let_go(statement);
        Ok(refusal == self.2)
    }
}

const LONG: &[u8] = b"CREATE TABLE A (B VARCHAR(1000) PRIMARY KEY)";

const NEW_TABLES: &[New] = &[
    New(b"CREATE TABLE A (B BIGINT)", 1024, Some(PlanFault::OneKey)),
    New(
        b"CREATE TABLE A (B BIGINT PRIMARY KEY, B BIGINT)",
        1024,
        Some(PlanFault::ColumnExists),
    ),
    New(
        b"CREATE TABLE A (B BIGINT PRIMARY KEY, C BIGINT PRIMARY KEY)",
        1024,
        Some(PlanFault::OneKey),
    ),
    // 1 byte of bits, 2 for the length, 1,000 for the text; half of 1024, an eighth of 4096
    New(
        LONG,
        1024,
        Some(PlanFault::RowTooLong {
            len: 1003,
            limit: 512,
        }),
    ),
    New(
        LONG,
        4096,
        Some(PlanFault::KeyTooLong {
            len: 2003,
            limit: 512,
        }),
    ),
    New(LONG, 16384, None),
    New(
        b"CREATE TABLE A (B BIGINT, C VARCHAR(62) PRIMARY KEY)",
        1024,
        None,
    ),
];

#[test]
fn a_new_table_has_one_key_and_short_rows(rt: HostRuntime) -> Result<(), Fail> {
    hold_each(&rt, rt.alloc(), NEW_TABLES)
}

fn is_first_column(e: &Expr) -> bool {
    match e {
        Expr::Column(place) => *place == 0,
        _ => false,
    }
}

/// Tells whether an UPDATE sets its second column to the first one, and has a filter.
fn sets_second_to_first(s: &Statement) -> bool {
    match s {
        Statement::Update {
            table: _,
            sets,
            filter,
        } => match sets.get(1) {
            Some(set) => is_first_column(&set.value) && filter.is_some(),
            None => false,
        },
        _ => false,
    }
}

/// Tells whether a statement is bound to the places 2 and 1, and its names are those of columns.
fn is_bound(bound: &Bound) -> bool {
    bound.places.as_slice() == [2, 1].as_slice() && sets_second_to_first(&bound.statement)
}

/// Tells whether a statement of the table is bound so.
fn is_bound_to(alloc: Global, s: &Statement) -> Result<bool, Fail> {
    let table = table_of(alloc, b"KV", KV)?;
    match bind_to(alloc, &table, s) {
        Ok(bound) => {
            let is = is_bound(&bound);
            mg_plan::let_go(bound);
            Ok(is)
        }
        Err(_) => Ok(false),
    }
}

#[test]
fn names_become_places(rt: HostRuntime) -> Result<(), Fail> {
    let text = b"UPDATE KV SET T = 'x', V = K WHERE T IS NULL";
    let statement = statement_of(rt.alloc(), text)?;
    let bound = is_bound_to(rt.alloc(), &statement);
    let_go(statement);
    assert!(rt; bound?);
    Ok(())
}
