//! Images of a small database made by hand: what they hold, and which rule each broken one breaks.

use super::alike::{Alike, are_like};
use super::cases::{Case, hold_each};
use super::cells::{K, KV, Laid, TWO, V};
use super::pages::{DONE, GONE, HELD, LIVE};
use super::sheets::{Change, Sheet, image_of};
use super::tables::{catalog, kv};
use mg_model::Table;
use mg_reading::{Image, ReadFault, RowCoding, Rule, TableRows, holds};
use mg_value::{Row, Value};
use std::alloc::Global;
use std::test::Fail;

// A database with the table KV alone and two versions of a row, in which transactions 1 to 3 are
// committed.
const SOUND: &[Sheet] = &[
    Sheet::Header(4, 1, 1, 3),
    Sheet::Inventory(7),
    Sheet::Transactions([DONE, DONE, DONE]),
    Sheet::Pointers(&[4]),
    Sheet::Catalog(&[]),
    Sheet::Pointers(&[6]),
    Sheet::Cells(TWO),
];

// The same without cells.
const EMPTIED: Change = (6, Sheet::Cells(&[]));

// The number in a column of a row.
fn number(values: &[Value], at: usize) -> i64 {
    match values.get(at) {
        Some(Value::Int(number)) => *number,
        _ => -1,
    }
}

// What an image is read as: the keys and values of its rows, or the rule that it breaks.
#[derive(Clone, Copy)]
enum Told {
    Rows(&'static [(i64, i64)]),
    Broken(Rule),
}

impl Alike<(i64, i64)> for Row {
    // This key and this value.
    fn is_like(&self, told: &(i64, i64)) -> bool {
        number(self.as_slice(), 0) == told.0 && number(self.as_slice(), 1) == told.1
    }
}

// Tells whether the first table has these keys and values.
fn has_rows(held: &[TableRows], wanted: &[(i64, i64)]) -> bool {
    match held.first() {
        Some(first) => are_like(first.rows.as_slice(), wanted),
        None => false,
    }
}

// Tells whether an image is read so, where it has these tables.
fn is_read(alloc: Global, image: &Image, tables: &[Table], told: Told) -> bool {
    match (holds(alloc, image, tables, RowCoding::Plain), told) {
        (Ok(held), Told::Rows(wanted)) => has_rows(&held, wanted),
        (Err(ReadFault::Broken(found)), Told::Broken(rule)) => found == rule,
        _ => false,
    }
}

// Changes of that database, and what it is read as then.
struct Read(&'static [Change], Told);

impl Case for Read {
    fn holds(&self, alloc: Global) -> Result<bool, Fail> {
        let image = image_of(alloc, SOUND, self.0)?;
        let table = kv(alloc)?;
        Ok(is_read(alloc, &image, &[table], self.1))
    }
}

// A row of transaction 1, and its deletion by transaction 2.
const DELETION: &[Laid] = &[
    Laid::Anchor(2, 2),
    Laid::First(1, 1, 10),
    Laid::Erased(2, (1, 1), 1),
];

// Two versions of a row, and two cells that no anchor leads to.
const UNREACHED: &[Laid] = &[
    Laid::Anchor(2, 2),
    Laid::First(1, 1, 10),
    Laid::Over(2, (1, 1), 1, 20),
    Laid::Erased(3, (2, 2), 1),
    Laid::First(3, 9, 90),
];

// Cells of KV that break a rule.
const READ: &[Read] = &[
    // The first committed version is shown:
    // An empty table holds no rows.
    Read(&[EMPTIED], Told::Rows(&[])),
    // Nor does one whose row is deleted by a committed transaction.
    Read(&[(6, Sheet::Cells(DELETION))], Told::Rows(&[])),
    // Both are committed.
    Read(&[], Told::Rows(&[(1, 20)])),
    // The newest is active.
    Read(
        &[(2, Sheet::Transactions([DONE, LIVE, DONE]))],
        Told::Rows(&[(1, 10)]),
    ),
    // The newest is dead.
    Read(
        &[(2, Sheet::Transactions([DONE, GONE, DONE]))],
        Told::Rows(&[(1, 10)]),
    ),
    // The newest is in limbo.
    Read(
        &[(2, Sheet::Transactions([DONE, HELD, DONE]))],
        Told::Rows(&[(1, 10)]),
    ),
    // Cells that no anchor leads to.
    Read(
        &[
            (2, Sheet::Transactions([DONE, HELD, DONE])),
            (6, Sheet::Cells(UNREACHED)),
        ],
        Told::Rows(&[(1, 10)]),
    ),

    // Each broken rule is named:
    // OIT past Next.
    Read(
        &[(0, Sheet::Header(4, 5, 5, 3))],
        Told::Broken(Rule::Header),
    ),
    // Bits of a transaction from Next on.
    Read(
        &[(0, Sheet::Header(3, 1, 1, 3))],
        Told::Broken(Rule::Transactions),
    ),
    // No bits from Next on.
    Read(
        &[
            (0, Sheet::Header(3, 1, 1, 3)),
            (2, Sheet::Transactions([DONE, DONE, LIVE])),
        ],
        Told::Rows(&[(1, 20)]),
    ),
    // A version of a transaction past Next.
    Read(
        &[
            (0, Sheet::Header(2, 1, 1, 3)),
            (2, Sheet::Transactions([DONE, LIVE, LIVE])),
        ],
        Told::Broken(Rule::Drawn),
    ),
    // A dead version below OIT.
    Read(
        &[
            (0, Sheet::Header(4, 3, 3, 3)),
            (2, Sheet::Transactions([DONE, GONE, DONE])),
        ],
        Told::Broken(Rule::Drawn),
    ),
    // A transaction in limbo below the oldest active one.
    Read(
        &[
            (0, Sheet::Header(4, 1, 3, 3)),
            (2, Sheet::Transactions([DONE, HELD, DONE])),
        ],
        Told::Broken(Rule::Drawn),
    ),
    // It is the oldest active one.
    Read(
        &[
            (0, Sheet::Header(4, 1, 2, 3)),
            (2, Sheet::Transactions([DONE, HELD, DONE])),
        ],
        Told::Rows(&[(1, 10)]),
    ),
    // A back version that is not committed.
    Read(
        &[(2, Sheet::Transactions([GONE, DONE, DONE]))],
        Told::Broken(Rule::Backs),
    ),
    // A reached page that is not used.
    Read(&[(1, Sheet::Inventory(6))], Told::Broken(Rule::Pages)),
    // A page in two entries.
    Read(&[(5, Sheet::Pointers(&[6, 6]))], Told::Broken(Rule::Pages)),
    // A page that no entry leads to.
    Read(&[(5, Sheet::Pointers(&[]))], Told::Rows(&[])),

    // Cells that break a rule:
    // Two records with one key.
    Read(
        &[(
            6,
            Sheet::Cells(&[
                Laid::Anchor(2, 2),
                Laid::First(1, 1, 10),
                Laid::Over(2, (1, 1), 1, 20),
                Laid::Anchor(4, 3),
                Laid::First(3, 1, 30),
            ]),
        )],
        Told::Broken(Rule::Keys),
    ),
    // A cell of two records.
    Read(
        &[(
            6,
            Sheet::Cells(&[
                Laid::Anchor(2, 2),
                Laid::First(1, 1, 10),
                Laid::Over(2, (1, 1), 1, 20),
                Laid::Anchor(1, 1),
            ]),
        )],
        Told::Broken(Rule::Links),
    ),
    // An anchor to a free slot.
    Read(
        &[(
            6,
            Sheet::Cells(&[
                Laid::Anchor(2, 2),
                Laid::First(1, 1, 10),
                Laid::Over(2, (1, 1), 1, 20),
                Laid::Anchor(5, 3),
            ]),
        )],
        Told::Broken(Rule::Links),
    ),
    // A back pointer to an anchor.
    Read(
        &[(
            6,
            Sheet::Cells(&[
                Laid::Anchor(2, 2),
                Laid::First(1, 1, 10),
                Laid::Over(2, (1, 1), 1, 20),
                Laid::Anchor(4, 3),
                Laid::Over(3, (0, 2), 2, 30),
            ]),
        )],
        Told::Broken(Rule::Links),
    ),
    // Two keys in one record.
    Read(
        &[(
            6,
            Sheet::Cells(&[
                Laid::Anchor(2, 2),
                Laid::First(1, 1, 10),
                Laid::Over(2, (1, 1), 2, 20),
            ]),
        )],
        Told::Broken(Rule::Keys),
    ),
    // A chain that comes back.
    Read(
        &[(
            6,
            Sheet::Cells(&[Laid::Anchor(1, 1), Laid::Over(1, (1, 1), 1, 10)]),
        )],
        Told::Broken(Rule::Links),
    ),
];

#[test]
fn an_image_is_read_or_breaks_the_rule_that_is_told(rt: HostRuntime) -> Result<(), Fail> {
    hold_each(&rt, rt.alloc(), READ)
}

// A new database.
const NEW: &[Change] = &[
    (0, Sheet::Header(1, 1, 1, 3)),
    (2, Sheet::Transactions([LIVE, LIVE, LIVE])),
    (4, Sheet::Catalog(&[K, V, KV])),
    EMPTIED,
];

// The numbers in a column of rows.
fn are_numbers(rows: &[Row], at: usize, wanted: &[i64]) -> bool {
    if rows.len() != wanted.len() {
        return false;
    }
    for (row, one) in rows.iter().zip(wanted) {
        if number(row.as_slice(), at) != *one {
            return false;
        }
    }
    true
}

// Tells whether the first table has these numbers in its column B, and the second one no row.
fn have_numbers(held: &[TableRows], wanted: &[i64]) -> bool {
    match (held.first(), held.get(1)) {
        (Some(first), Some(second)) => {
            are_numbers(&first.rows, 3, wanted) && second.rows.is_empty()
        }
        _ => false,
    }
}

// Tells whether an image holds the catalog's rows, with these numbers in its column B, and no row of
// KV.
fn holds_catalog(alloc: Global, image: &Image, tables: &[Table], wanted: &[i64]) -> bool {
    match holds(alloc, image, tables, RowCoding::Plain) {
        Ok(held) => have_numbers(&held, wanted),
        Err(_) => false,
    }
}

// The catalog and KV.
fn both(alloc: Global) -> Result<Vec<Table>, Fail> {
    let mut tables = Vec::new(alloc);
    tables.push(catalog(alloc)?)?;
    tables.push(kv(alloc)?)?;
    Ok(tables)
}

// Changes of that database, and the numbers that its catalog then has in its column B; KV is empty.
struct Held(&'static [Change], &'static [i64]);

impl Case for Held {
    fn holds(&self, alloc: Global) -> Result<bool, Fail> {
        let image = image_of(alloc, SOUND, self.0)?;
        let tables = both(alloc)?;
        Ok(holds_catalog(alloc, &image, &tables, self.1))
    }
}

const HELD_NEW: &[Held] = &[Held(NEW, &[3, 0, 2])];

#[test]
fn a_new_database_has_its_catalog_and_an_empty_table(rt: HostRuntime) -> Result<(), Fail> {
    hold_each(&rt, rt.alloc(), HELD_NEW)
}
