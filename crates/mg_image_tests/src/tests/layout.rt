//! Images of a small database made by hand: where their tables stand, and what is refused.

use super::alike::{Alike, are_like};
use super::cases::{Case, hold_each};
use super::cells::{K, KV, Said, V};
use super::pages::{DONE, GONE, HELD};
use super::sheets::{Change, Sheet, image_of};
use mg_layout::{Standing, TableStand, are_pages_once, layout_of};
use mg_reading::{Image, ReadFault, RowCoding, Rule};
use std::alloc::Global;
use std::test::Fail;

// A database with an empty catalog, on pages 3 and 4. Its first table would stand on 5 and 6, with
// the root of an index on 9, a second one on 7 and 8.
const EMPTY: &[Sheet] = &[
    Sheet::Header(4, 1, 4, 3),
    Sheet::Inventory(12),
    Sheet::Transactions([DONE, DONE, DONE]),
    Sheet::Pointers(&[4]),
    Sheet::Catalog(&[]),
    Sheet::Pointers(&[6]),
    Sheet::Cells(&[]),
    Sheet::Pointers(&[8]),
    Sheet::Data(7, 0, 8, &[]),
    Sheet::Leaf(&[]),
];

// The row of the one column of a second table T, by transaction 1.
const T_K: Said = (b"CT.00", b"K", [0, 3, 1, 0], 1);

// The row of that table, from page 7 on.
const T: Said = (b"TT", b"", [7, 1, 0, 0], 1);

// A table by its name and its first page.
type Named = (&'static [u8], u32);

// What is told of a database: its tables, in this order, and whether no page is reached twice; that
// its catalog stands on pages 3 and 4, and its first table on 5 and 6; or that it has no layout.
#[derive(Clone, Copy)]
enum Told {
    Tables(&'static [Named], bool),
    New,
    Refused,
}

impl Alike<Named> for TableStand {
    fn is_like(&self, told: &Named) -> bool {
        self.table.name.as_slice() == told.0 && self.table.pointer.0 == told.1
    }
}

// Tells whether a table stands on a pointer page and the data page behind it.
fn stands_from(stand: &TableStand, first: u32) -> bool {
    stand.pages.pointers.as_slice() == [first].as_slice()
        && stand.pages.data_pages.as_slice() == [first.wrapping_add(1)].as_slice()
}

// Tells whether the catalog stands from page 3 on, and the first table from page 5 on.
fn is_new(found: &Standing) -> bool {
    match found.tables.first() {
        Some(table) => stands_from(&found.catalog, 3) && stands_from(table, 5),
        None => false,
    }
}

// Tells whether a layout is the one that is told.
fn is_standing(alloc: Global, image: &Image, found: &Standing, told: Told) -> Result<bool, Fail> {
    match told {
        Told::Tables(wanted, once) => {
            Ok(
                are_like(found.tables.as_slice(), wanted)
                    && are_pages_once(alloc, image, found)? == once,
            )
        }
        Told::New => Ok(is_new(found)),
        Told::Refused => Ok(false),
    }
}

// Tells whether an image has the layout that is told.
fn is_told(alloc: Global, image: &Image, told: Told) -> Result<bool, Fail> {
    match layout_of(alloc, image, RowCoding::Plain) {
        Ok(found) => {
            let is = is_standing(alloc, image, &found, told);
            drop(found);
            is
        }
        Err(ReadFault::Broken(Rule::Pages)) => Ok(matches!(told, Told::Refused)),
        Err(_) => Ok(false),
    }
}

// Changes of that database, and what is told of it then; its header is lawful.
struct Placed(&'static [Change], Told);

impl Case for Placed {
    fn holds(&self, alloc: Global) -> Result<bool, Fail> {
        let image = image_of(alloc, EMPTY, self.0)?;
        Ok(image.has_header() && is_told(alloc, &image, self.1)?)
    }
}

const BOTH: Told = Told::Tables(&[(b"KV", 5), (b"T", 7)], true);

const FIRST_ALONE: Told = Told::Tables(&[(b"KV", 5)], true);

// A new database.
const NEW: Change = (4, Sheet::Catalog(&[K, V, KV]));

// One with a second table.
const TWO: Change = (4, Sheet::Catalog(&[K, V, KV, T_K, T]));

// A second table by transaction 2, whose column is by transaction 1.
const SPLIT: Change = (
    4,
    Sheet::Catalog(&[K, V, KV, T_K, (b"TT", b"", [7, 1, 0, 0], 2)]),
);

// The row of KV where it has one index more.
const KV_X: Said = (b"TKV", b"", [5, 2, 0, 1], 0);

// Tables, and the pages that they stand on.
const PLACED: &[Placed] = &[
    // Tables stand in the order of their names:
    // An empty catalog.
    Placed(&[], Told::Tables(&[], true)),
    // A new database, and its pages.
    Placed(&[NEW], FIRST_ALONE),
    Placed(&[NEW], Told::New),
    // Two tables.
    Placed(&[(4, Sheet::Catalog(&[T_K, T, K, V, KV]))], BOTH),

    // A page of two tables is reached twice:
    // One first page.
    Placed(
        &[(
            4,
            Sheet::Catalog(&[K, V, KV, T_K, (b"TT", b"", [5, 1, 0, 0], 1)]),
        )],
        Told::Tables(&[(b"KV", 5), (b"T", 5)], false),
    ),
    // A data page of another owner.
    Placed(&[TWO, (7, Sheet::Pointers(&[6]))], Told::Refused),
];

// Catalogs that are not lawful, and first pages that are none.
const UNPLACED: &[Placed] = &[
    // A row besides those of a new database, with which the catalog is not lawful:
    // A table without its column.
    Placed(
        &[(
            4,
            Sheet::Catalog(&[K, V, KV, (b"TT", b"", [7, 1, 0, 0], 0)]),
        )],
        Told::Refused,
    ),
    // A column without its table.
    Placed(
        &[(
            4,
            Sheet::Catalog(&[K, V, KV, (b"CT.00", b"K", [0, 3, 1, 0], 0)]),
        )],
        Told::Refused,
    ),
    // An index without its table.
    Placed(
        &[(
            4,
            Sheet::Catalog(&[K, V, KV, (b"IX", b"T", [9, 0, 0, 0], 0)]),
        )],
        Told::Refused,
    ),
    // More columns than the table counts.
    Placed(
        &[(
            4,
            Sheet::Catalog(&[K, V, KV, (b"CKV.02", b"W", [0, 0, 1, 2], 0)]),
        )],
        Told::Refused,
    ),
    // An index that the table does not count.
    Placed(
        &[(
            4,
            Sheet::Catalog(&[K, V, KV, (b"IX", b"KV", [9, 1, 0, 0], 0)]),
        )],
        Told::Refused,
    ),
    // Two rows of one key.
    Placed(&[(4, Sheet::Catalog(&[K, V, KV, V]))], Told::Refused),
    // A row of no kind.
    Placed(
        &[(
            4,
            Sheet::Catalog(&[K, V, KV, (b"QKV", b"", [0, 0, 0, 0], 0)]),
        )],
        Told::Refused,
    ),

    // A table stands on its own pages:
    // No first page.
    Placed(
        &[(
            4,
            Sheet::Catalog(&[K, V, KV, T_K, (b"TT", b"", [0, 1, 0, 0], 1)]),
        )],
        Told::Refused,
    ),
    // A data page as the first page.
    Placed(
        &[(
            4,
            Sheet::Catalog(&[K, V, KV, T_K, (b"TT", b"", [6, 1, 0, 0], 1)]),
        )],
        Told::Refused,
    ),
    // A page that is zero.
    Placed(
        &[(
            4,
            Sheet::Catalog(&[K, V, KV, T_K, (b"TT", b"", [10, 1, 0, 0], 1)]),
        )],
        Told::Refused,
    ),
    // A page that is not used.
    Placed(
        &[(
            4,
            Sheet::Catalog(&[K, V, KV, T_K, (b"TT", b"", [12, 1, 0, 0], 1)]),
        )],
        Told::Refused,
    ),
    // A data page as the catalog's first page.
    Placed(&[NEW, (0, Sheet::Header(4, 1, 4, 4))], Told::Refused),
];

// Tables by transactions that have not committed, and indexes.
const CHOSEN: &[Placed] = &[
    // Each choice of limbo transactions has to be lawful:
    // A table of a limbo transaction.
    Placed(&[TWO, (2, Sheet::Transactions([HELD, DONE, DONE]))], BOTH),
    // A table of a dead one.
    Placed(
        &[TWO, (2, Sheet::Transactions([GONE, DONE, DONE]))],
        FIRST_ALONE,
    ),
    // Both committed.
    Placed(&[SPLIT], BOTH),
    // A column without its table.
    Placed(
        &[SPLIT, (2, Sheet::Transactions([DONE, HELD, DONE]))],
        Told::Refused,
    ),
    // A table without its column.
    Placed(
        &[SPLIT, (2, Sheet::Transactions([HELD, DONE, DONE]))],
        Told::Refused,
    ),
    // One of two limbo transactions.
    Placed(
        &[SPLIT, (2, Sheet::Transactions([HELD, HELD, DONE]))],
        Told::Refused,
    ),
    // Both dead.
    Placed(
        &[SPLIT, (2, Sheet::Transactions([GONE, GONE, DONE]))],
        FIRST_ALONE,
    ),

    // An index stands from its root, also that of a second one:
    // An empty index.
    Placed(
        &[(
            4,
            Sheet::Catalog(&[K, V, KV_X, (b"IX", b"KV", [9, 1, 0, 0], 0)]),
        )],
        FIRST_ALONE,
    ),
    // No root.
    Placed(
        &[(
            4,
            Sheet::Catalog(&[K, V, KV_X, (b"IX", b"KV", [0, 1, 0, 0], 0)]),
        )],
        Told::Refused,
    ),
    // A pointer page as the root.
    Placed(
        &[(
            4,
            Sheet::Catalog(&[K, V, KV_X, (b"IX", b"KV", [5, 1, 0, 0], 0)]),
        )],
        Told::Refused,
    ),
    // A page that is zero as the root.
    Placed(
        &[(
            4,
            Sheet::Catalog(&[K, V, KV_X, (b"IX", b"KV", [10, 1, 0, 0], 0)]),
        )],
        Told::Refused,
    ),
    // One root of two indexes.
    Placed(
        &[(
            4,
            Sheet::Catalog(&[
                K,
                V,
                (b"TKV", b"", [5, 2, 9, 1], 0),
                (b"IX", b"KV", [9, 1, 0, 0], 0),
            ]),
        )],
        Told::Tables(&[(b"KV", 5)], false),
    ),
];

#[test]
fn tables_stand_on_their_own_pages_by_their_names(rt: HostRuntime) -> Result<(), Fail> {
    hold_each(&rt, rt.alloc(), PLACED)?;
    hold_each(&rt, rt.alloc(), UNPLACED)?;
    hold_each(&rt, rt.alloc(), CHOSEN)
}
