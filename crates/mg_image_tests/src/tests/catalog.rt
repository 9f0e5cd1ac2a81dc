//! Small catalogs made by hand: the tables that they name, and the first bad row of each broken
//! one.

use super::alike::{Alike, are_like};
use super::cases::{Case, hold_each};
use mg_base::Memory;
use mg_catalog::{CatFault, rows_of, tables_of};
use mg_model::{Index, Table};
use mg_value::{Column, Kind, Row, Txt, Value, order};
use std::alloc::Global;
use std::cmp::Ordering;
use std::test::Fail;

// A row of the catalog; no name is NULL.
#[derive(Clone, Copy)]
struct Said {
    key: &'static [u8],
    name: &'static [u8],
    numbers: [i64; 4],
}

// The row of the column K of KV.
const K: Said = Said {
    key: b"CKV.00",
    name: b"K",
    numbers: [0, 3, 1, 0],
};

// The row of its column V.
const V: Said = Said {
    key: b"CKV.01",
    name: b"V",
    numbers: [0, 0, 1, 1],
};

// What the table KV (K BIGINT PRIMARY KEY, V BIGINT) with an index on V says, in the order of keys.
const KV: [Said; 4] = [
    K,
    V,
    Said {
        key: b"IKVV",
        name: b"KV",
        numbers: [7, 1, 0, 0],
    },
    Said {
        key: b"TKV",
        name: b"",
        numbers: [5, 2, 6, 1],
    },
];

fn text(alloc: Global, bytes: &[u8]) -> Result<Value, Fail> {
    if bytes.len() >= 1000 {
        return Err("a long text")?;
    }
    Ok(Value::Text(Txt::new(alloc, bytes, 1000)?))
}

// The name that a row says.
fn name_of(alloc: Global, said: &Said) -> Result<Value, Fail> {
    if said.name.is_empty() {
        return Ok(Value::Null);
    }
    text(alloc, said.name)
}

fn row(alloc: Global, said: &Said) -> Result<Row, Fail> {
    let mut values = vec![in alloc; text(alloc, said.key)?, name_of(alloc, said)?]?;
    for number in said.numbers {
        values.push(Value::Int(number))?;
    }
    Ok(Row::new(values))
}

fn rows(alloc: Global, said: &[Said]) -> Result<Vec<Row>, Fail> {
    let mut rows = Vec::new(alloc);
    for one in said {
        rows.push(row(alloc, one)?)?;
    }
    Ok(rows)
}

// The tables that rows name, or why they are refused.
fn read(alloc: Global, said: &[Said]) -> Result<Result<Vec<Table>, CatFault>, Fail> {
    let rows = rows(alloc, said)?;
    if rows.len() >= 1000 {
        return Err("many rows")?;
    }
    Ok(tables_of(alloc, &rows))
}

// A column as the tests write it: its name, its kind, and whether it is NOT NULL.
type Told = (&'static [u8], Kind, bool);

impl Alike<Told> for Column {
    // It is there since format 1.
    fn is_like(&self, told: &Told) -> bool {
        self.name.as_slice() == told.0
            && self.kind == told.1
            && self.not_null == told.2
            && self.since == 1
    }
}

// An index as the tests write it: its name, the place of its column, and its root.
type Rooted = (&'static [u8], u16, u32);

impl Alike<Rooted> for Index {
    fn is_like(&self, told: &Rooted) -> bool {
        self.name.as_slice() == told.0 && self.column == told.1 && self.root.0 == told.2
    }
}

// A table as the tests write it: its name, its first page, the place of its key, its columns and its
// indexes.
struct Wanted {
    name: &'static [u8],
    pointer: u32,
    key: u16,
    columns: &'static [Told],
    indexes: &'static [Rooted],
}

impl Alike<Wanted> for Table {
    fn is_like(&self, told: &Wanted) -> bool {
        self.name.as_slice() == told.name
            && self.pointer.0 == told.pointer
            && self.shape.key == told.key
            && are_like(self.shape.columns.as_slice(), told.columns)
            && are_like(self.indexes.as_slice(), told.indexes)
    }
}

// Rows of a catalog, and the tables that they name, in this order.
struct Named(&'static [Said], &'static [Wanted]);

impl Case for Named {
    fn holds(&self, alloc: Global) -> Result<bool, Fail> {
        match read(alloc, self.0)? {
            Ok(tables) => Ok(are_like(tables.as_slice(), self.1)),
            Err(_) => Ok(false),
        }
    }
}

// The rows of a new database.
const NEW: &[Said] = &[
    K,
    V,
    Said {
        key: b"TKV",
        name: b"",
        numbers: [5, 2, 0, 0],
    },
];

// What a table B with two indexes and a table A say, in no order.
const MIXED: &[Said] = &[
    Said {
        key: b"TB",
        name: b"",
        numbers: [9, 2, 10, 2],
    },
    Said {
        key: b"IZ",
        name: b"B",
        numbers: [11, 1, 0, 0],
    },
    Said {
        key: b"CB.00",
        name: b"X",
        numbers: [0, 0, 1, 0],
    },
    Said {
        key: b"IA",
        name: b"B",
        numbers: [12, 0, 0, 0],
    },
    Said {
        key: b"CB.01",
        name: b"Y",
        numbers: [20, 3, 1, 1],
    },
    Said {
        key: b"TA",
        name: b"",
        numbers: [13, 1, 14, 0],
    },
    Said {
        key: b"CA.00",
        name: b"Z",
        numbers: [1000, 3, 1, 0],
    },
];

const NAMED: &[Named] = &[
    // No rows name no tables.
    Named(&[], &[]),
    // Those of a new database name KV.
    Named(
        NEW,
        &[Wanted {
            name: b"KV",
            pointer: 5,
            key: 0,
            columns: &[(b"K", Kind::Int, true), (b"V", Kind::Int, false)],
            indexes: &[],
        }],
    ),
    // The index of a key has the table's name, and comes first.
    Named(
        MIXED,
        &[
            Wanted {
                name: b"A",
                pointer: 13,
                key: 0,
                columns: &[(b"Z", Kind::Text(1000), true)],
                indexes: &[(b"A", 0, 14)],
            },
            Wanted {
                name: b"B",
                pointer: 9,
                key: 1,
                columns: &[(b"X", Kind::Int, false), (b"Y", Kind::Text(20), true)],
                indexes: &[(b"B", 1, 10), (b"A", 0, 12), (b"Z", 1, 11)],
            },
        ],
    ),
];

#[test]
fn tables_and_indexes_come_in_the_order_of_their_names(rt: HostRuntime) -> Result<(), Fail> {
    hold_each(&rt, rt.alloc(), NAMED)
}

// The rows of KV with the one at a place changed.
fn with_row(place: usize, said: Said) -> [Said; 4] {
    let mut rows = KV;
    if place < 4 {
        rows[place] = said;
    }
    rows
}

// The place of a row of KV, what it says in place of what it said, and the place of the row for
// which the rows are refused then.
struct Changed(usize, &'static [u8], &'static [u8], [i64; 4], u32);

// The rows of KV that are changed so.
fn rows_after(change: &Changed) -> [Said; 4] {
    let said = Said {
        key: change.1,
        name: change.2,
        numbers: change.3,
    };
    with_row(change.0, said)
}

// Tells whether rows are refused for the one at a place.
fn is_refused(alloc: Global, said: &[Said], place: u32) -> Result<bool, Fail> {
    match read(alloc, said)? {
        Err(CatFault::BadTable { at }) => Ok(at == place as usize),
        _ => Ok(false),
    }
}

impl Case for Changed {
    fn holds(&self, alloc: Global) -> Result<bool, Fail> {
        is_refused(alloc, &rows_after(self), self.4)
    }
}

const CHANGED: &[Changed] = &[
    // No key.
    Changed(0, b"CKV.00", b"K", [0, 1, 1, 0], 3),
    // Two keys.
    Changed(1, b"CKV.01", b"V", [0, 3, 1, 1], 3),
    // Flags 2.
    Changed(1, b"CKV.01", b"V", [0, 2, 1, 1], 1),
    // A long VARCHAR.
    Changed(1, b"CKV.01", b"V", [1001, 0, 1, 1], 1),
    // Format 0.
    Changed(1, b"CKV.01", b"V", [0, 0, 0, 1], 1),
    // A great format.
    Changed(1, b"CKV.01", b"V", [0, 0, 65_536, 1], 1),
    // A late NOT NULL.
    Changed(1, b"CKV.01", b"V", [0, 1, 2, 1], 1),
    // A late key.
    Changed(0, b"CKV.00", b"K", [0, 3, 2, 0], 0),
    // Another place.
    Changed(1, b"CKV.01", b"V", [0, 0, 1, 2], 1),
    // A negative length.
    Changed(1, b"CKV.01", b"V", [-1, 0, 1, 1], 1),
    // One name twice.
    Changed(1, b"CKV.01", b"K", [0, 0, 1, 1], 0),
    // A column before an older one.
    Changed(0, b"CKV.00", b"K", [0, 0, 2, 0], 1),
    // A word as a name.
    Changed(1, b"CKV.01", b"KEY", [0, 0, 1, 1], 1),
    // No name.
    Changed(1, b"CKV.01", b"", [0, 0, 1, 1], 1),
    // A column too many.
    Changed(1, b"CKV.02", b"V", [0, 0, 1, 2], 1),
    // No digit.
    Changed(1, b"CKV.0A", b"V", [0, 0, 1, 1], 1),
    // No full stop.
    Changed(1, b"CKV,01", b"V", [0, 0, 1, 1], 1),
    // An index of no table.
    Changed(2, b"IKVV", b"VK", [7, 1, 0, 0], 2),
    // An index of no column.
    Changed(2, b"IKVV", b"KV", [7, 2, 0, 0], 2),
    // A last number.
    Changed(2, b"IKVV", b"KV", [7, 1, 0, 1], 2),
    // A great root.
    Changed(2, b"IKVV", b"KV", [4_294_967_296, 1, 0, 0], 2),
    // A root in page 0.
    Changed(2, b"IKVV", b"KV", [0, 1, 0, 0], 2),
    // No name of an index.
    Changed(2, b"IKV V", b"KV", [7, 1, 0, 0], 2),
    // An unknown letter.
    Changed(2, b"XKVV", b"KV", [7, 1, 0, 0], 2),
    // An index too many.
    Changed(3, b"TKV", b"", [5, 2, 6, 0], 3),
    // A column too few.
    Changed(3, b"TKV", b"", [5, 3, 6, 1], 3),
    // A table with a name.
    Changed(3, b"TKV", b"KV", [5, 2, 6, 1], 3),
    // A great pointer.
    Changed(3, b"TKV", b"", [4_294_967_296, 2, 6, 1], 3),
    // Columns that are not counted.
    Changed(3, b"TKV", b"", [5, 1, 6, 1], 1),
];

#[test]
fn a_row_that_breaks_a_rule_is_named(rt: HostRuntime) -> Result<(), Fail> {
    hold_each(&rt, rt.alloc(), CHANGED)
}

impl Alike<Value> for Value {
    fn is_like(&self, told: &Value) -> bool {
        order(self, told) == Ordering::Equal
    }
}

impl Alike<Row> for Row {
    fn is_like(&self, told: &Row) -> bool {
        are_like(self.as_slice(), told.as_slice())
    }
}

// The rows that say a table.
fn said_of(alloc: Global, table: &Table) -> Result<Vec<Row>, Fail> {
    if table.shape.columns.as_slice().len() > 64 || table.indexes.as_slice().len() > 64 {
        return Err("a great table")?;
    }
    Ok(rows_of(alloc, table)?)
}

// Tells whether each table is said by these rows.
fn are_said(alloc: Global, tables: &[Table], wanted: &[Row]) -> Result<bool, Fail> {
    for table in tables {
        let found = said_of(alloc, table)?;
        if !are_like(found.as_slice(), wanted) {
            return Ok(false);
        }
    }
    Ok(true)
}

// The rows of one table, in the order in which it says them.
struct SaidBack(&'static [Said]);

impl Case for SaidBack {
    fn holds(&self, alloc: Global) -> Result<bool, Fail> {
        match read(alloc, self.0)? {
            Ok(tables) => are_said(alloc, &tables, &rows(alloc, self.0)?),
            Err(_) => Ok(false),
        }
    }
}

const SAID_BACK: &[SaidBack] = &[SaidBack(&KV)];

#[test]
fn a_table_is_said_by_the_rows_that_it_was_read_from(rt: HostRuntime) -> Result<(), Fail> {
    hold_each(&rt, rt.alloc(), SAID_BACK)
}

const OF_CATALOG: &[Said] = &[
    Said {
        key: b"CMG$CATALOG.00",
        name: b"K",
        numbers: [40, 3, 1, 0],
    },
    Said {
        key: b"TMG$CATALOG",
        name: b"",
        numbers: [3, 1, 0, 0],
    },
];

#[test]
fn the_catalog_has_no_row_of_its_own(rt: HostRuntime) -> Result<(), Fail> {
    assert!(rt; is_refused(rt.alloc(), OF_CATALOG, 1)?);
    Ok(())
}

// Tells whether a fault prints these words.
fn prints(alloc: Global, fault: CatFault, words: &str) -> Result<bool, Fail> {
    Ok(format!(in alloc; "{fault}")?.as_str() == words)
}

#[test]
fn faults_print_in_words(rt: HostRuntime) -> Result<(), Fail> {
    let bad = prints(rt.alloc(), CatFault::BadTable { at: 12 }, "BAD TABLE 12")?;
    let memory = prints(rt.alloc(), CatFault::from(Memory), "OUT OF MEMORY")?;
    assert!(rt; bad && memory);
    Ok(())
}
