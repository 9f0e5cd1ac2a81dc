//! Images of a small database made by hand: sound ones, and for each rule some that break it first.

use super::cases::{Case, hold_each};
use super::cells::{K, KV, Laid, Said, TWO, V};
use super::pages::{DONE, GONE, HELD, LIVE};
use super::sheets::{Change, Sheet, image_of};
use mg_reading::{Image, ReadFault, RowCoding, Rule};
use mg_soundness::{check_soundness, is_unmade};
use std::alloc::Global;
use std::test::Fail;

// The row of the table KV from page 5 on, whose primary index has its root on page 7.
const INDEXED: Said = (b"TKV", b"", [5, 2, 7, 0], 0);

// A sound database.
const SOUND: &[Sheet] = &[
    Sheet::Header(4, 1, 1, 3),
    Sheet::Inventory(8),
    Sheet::Transactions([DONE, DONE, DONE]),
    Sheet::Pointers(&[4]),
    Sheet::Catalog(&[K, V, INDEXED]),
    Sheet::Pointers(&[6]),
    Sheet::Cells(TWO),
    Sheet::Leaf(&[(1, 0)]),
];

// The same without cells and without keys.
const NO_CELLS: Change = (6, Sheet::Cells(&[]));

const NO_KEYS: Change = (7, Sheet::Leaf(&[]));

/// Tells whether this rule is the first that an image breaks, or whether it is sound where none is
/// told.
pub fn breaks(alloc: Global, image: &Image, rule: Option<Rule>) -> bool {
    match (check_soundness(alloc, image, RowCoding::Plain), rule) {
        (Ok(()), None) => true,
        (Err(ReadFault::Broken(found)), Some(rule)) => found == rule,
        _ => false,
    }
}

// Changes of that database, and the rule that it then breaks first, none where it is sound.
struct Judged(&'static [Change], Option<Rule>);

impl Case for Judged {
    fn holds(&self, alloc: Global) -> Result<bool, Fail> {
        let image = image_of(alloc, SOUND, self.0)?;
        Ok(breaks(alloc, &image, self.1))
    }
}

// A deletion, and a cell that nothing leads to.
const ERASED: Change = (
    6,
    Sheet::Cells(&[
        Laid::Anchor(2, 2),
        Laid::First(1, 1, 10),
        Laid::Erased(2, (1, 1), 1),
        Laid::First(3, 9, 90),
    ]),
);

// The row of KV with a third column.
const THREE: Said = (b"TKV", b"", [5, 3, 7, 0], 0);

// Transaction 2 gives KV another shape: V comes to be NOT NULL.
const RESHAPED: Change = (
    4,
    Sheet::Data(
        3,
        0,
        4,
        &[
            Laid::Anchor(1, 0),
            Laid::Row(K),
            Laid::Anchor(6, 2),
            Laid::Row(V),
            Laid::Anchor(5, 0),
            Laid::Row(INDEXED),
            Laid::RowOver((3, 0), (b"CKV.01", b"V", [0, 1, 1, 1], 2)),
        ],
    ),
);

// Transaction 2 has made KV.
const MADE: Change = (
    4,
    Sheet::Catalog(&[
        (b"CKV.00", b"K", [0, 3, 1, 0], 2),
        (b"CKV.01", b"V", [0, 0, 1, 1], 2),
        (b"TKV", b"", [5, 2, 7, 0], 2),
    ]),
);

// A row of transaction 1, and one of transaction 2.
const ONE: Change = (
    6,
    Sheet::Cells(&[Laid::Anchor(1, 1), Laid::First(1, 1, 10)]),
);

const ITS_OWN: Change = (
    6,
    Sheet::Cells(&[Laid::Anchor(1, 2), Laid::First(2, 1, 10)]),
);

// Two records of one key.
const TWICE: Change = (
    6,
    Sheet::Cells(&[
        Laid::Anchor(1, 1),
        Laid::First(1, 1, 10),
        Laid::Anchor(3, 2),
        Laid::First(2, 1, 20),
    ]),
);

// Two keys in one record.
const OTHER_KEY: Change = (
    6,
    Sheet::Cells(&[
        Laid::Anchor(2, 2),
        Laid::First(1, 1, 10),
        Laid::Over(2, (1, 1), 2, 20),
    ]),
);

// Sound images, and pages.
const JUDGED: &[Judged] = &[
    // Sound images pass:
    // Two versions; the newer one is in limbo, dead, and active.
    Judged(&[], None),
    Judged(&[(2, Sheet::Transactions([DONE, HELD, DONE]))], None),
    Judged(&[(2, Sheet::Transactions([DONE, GONE, DONE]))], None),
    Judged(&[(2, Sheet::Transactions([DONE, LIVE, DONE]))], None),
    // A deletion, and a cell that nothing leads to.
    Judged(&[ERASED, NO_KEYS], None),
    // An entry too many.
    Judged(&[ERASED, (7, Sheet::Leaf(&[(5, 0)]))], None),

    // The rules of pages:
    // OIT past Next.
    Judged(&[(0, Sheet::Header(4, 5, 1, 3))], Some(Rule::Header)),
    // Bits from Next on.
    Judged(&[(0, Sheet::Header(3, 1, 1, 3))], Some(Rule::Transactions)),
    // A root that is not used.
    Judged(&[(1, Sheet::Inventory(7))], Some(Rule::Pages)),
    // An empty catalog.
    Judged(&[(4, Sheet::Catalog(&[]))], None),
    // A table without columns.
    Judged(
        &[(4, Sheet::Catalog(&[(b"TT", b"", [5, 1, 0, 0], 0)]))],
        Some(Rule::Pages),
    ),
    // A page of two tables: T begins on the page of KV.
    Judged(
        &[(
            4,
            Sheet::Catalog(&[
                K,
                V,
                (b"CT.00", b"K", [0, 3, 1, 0], 0),
                INDEXED,
                (b"TT", b"", [5, 1, 0, 0], 0),
            ]),
        )],
        Some(Rule::Once),
    ),
];

// Tables and links.
const LINKED: &[Judged] = &[
    // Tables fit their pages:
    // A row of 523 bytes, which is more than half a page.
    Judged(
        &[
            NO_CELLS,
            NO_KEYS,
            (
                4,
                Sheet::Catalog(&[
                    K,
                    (b"CKV.01", b"V", [255, 0, 1, 1], 0),
                    (b"CKV.02", b"W", [255, 0, 1, 2], 0),
                    THREE,
                ]),
            ),
        ],
        Some(Rule::Pages),
    ),
    // A row of 512 bytes, which is half a page.
    Judged(
        &[
            NO_CELLS,
            NO_KEYS,
            (
                4,
                Sheet::Catalog(&[
                    K,
                    (b"CKV.01", b"V", [255, 0, 1, 1], 0),
                    (b"CKV.02", b"W", [244, 0, 1, 2], 0),
                    THREE,
                ]),
            ),
        ],
        None,
    ),
    // A key of 129 bytes at most, which is more than an eighth of a page.
    Judged(
        &[
            NO_CELLS,
            NO_KEYS,
            (
                4,
                Sheet::Catalog(&[(b"CKV.00", b"K", [63, 3, 1, 0], 0), V, INDEXED]),
            ),
        ],
        Some(Rule::Pages),
    ),
    // A key of 127 bytes at most.
    Judged(
        &[
            NO_CELLS,
            NO_KEYS,
            (
                4,
                Sheet::Catalog(&[(b"CKV.00", b"K", [62, 3, 1, 0], 0), V, INDEXED]),
            ),
        ],
        None,
    ),

    // Tables are those of their makers:
    // A table that a limbo transaction changes.
    Judged(
        &[ONE, RESHAPED, (2, Sheet::Transactions([DONE, HELD, DONE]))],
        Some(Rule::Pages),
    ),
    // A dead transaction changes nothing.
    Judged(
        &[ONE, RESHAPED, (2, Sheet::Transactions([DONE, GONE, DONE]))],
        None,
    ),
    // A row of another in a table of limbo.
    Judged(
        &[ONE, MADE, (2, Sheet::Transactions([DONE, HELD, DONE]))],
        Some(Rule::Drawn),
    ),
    // A dead row in a table of limbo.
    Judged(
        &[ONE, MADE, (2, Sheet::Transactions([GONE, HELD, DONE]))],
        None,
    ),
    // The maker's own row.
    Judged(
        &[ITS_OWN, MADE, (2, Sheet::Transactions([DONE, HELD, DONE]))],
        None,
    ),

    // The rule of links:
    // An anchor to a free slot.
    Judged(
        &[(6, Sheet::Cells(&[Laid::Anchor(5, 3)]))],
        Some(Rule::Links),
    ),
    // An anchor to another transaction.
    Judged(
        &[(
            6,
            Sheet::Cells(&[Laid::Anchor(1, 2), Laid::First(1, 1, 10)]),
        )],
        Some(Rule::Links),
    ),
    // A back pointer to an anchor.
    Judged(
        &[(
            6,
            Sheet::Cells(&[Laid::Anchor(1, 2), Laid::Over(2, (0, 2), 1, 10)]),
        )],
        Some(Rule::Links),
    ),
    // A chain that comes back.
    Judged(
        &[(
            6,
            Sheet::Cells(&[Laid::Anchor(1, 1), Laid::Over(1, (1, 1), 1, 10)]),
        )],
        Some(Rule::Links),
    ),
    // A cell of two records.
    Judged(
        &[(
            6,
            Sheet::Cells(&[
                Laid::Anchor(1, 1),
                Laid::First(1, 1, 10),
                Laid::Anchor(1, 1),
            ]),
        )],
        Some(Rule::Links),
    ),
];

// Transactions and keys.
const DRAWN: &[Judged] = &[
    // The rules of transactions:
    // A version from Next on.
    Judged(
        &[
            (0, Sheet::Header(2, 1, 1, 3)),
            (2, Sheet::Transactions([DONE, LIVE, LIVE])),
        ],
        Some(Rule::Drawn),
    ),
    // A dead version below OIT.
    Judged(
        &[
            (0, Sheet::Header(4, 3, 3, 3)),
            (2, Sheet::Transactions([DONE, GONE, DONE])),
        ],
        Some(Rule::Drawn),
    ),
    // Limbo below OAT.
    Judged(
        &[
            (0, Sheet::Header(4, 1, 3, 3)),
            (2, Sheet::Transactions([DONE, HELD, DONE])),
        ],
        Some(Rule::Drawn),
    ),
    // Limbo at OAT.
    Judged(
        &[
            (0, Sheet::Header(4, 1, 2, 3)),
            (2, Sheet::Transactions([DONE, HELD, DONE])),
        ],
        None,
    ),
    // A dead back version.
    Judged(
        &[(2, Sheet::Transactions([GONE, DONE, DONE]))],
        Some(Rule::Backs),
    ),

    // The rules of keys:
    // Two records of one key; the second one's transaction is in limbo, and dead.
    Judged(&[TWICE], Some(Rule::Keys)),
    Judged(
        &[TWICE, (2, Sheet::Transactions([DONE, HELD, DONE]))],
        Some(Rule::Keys),
    ),
    Judged(&[TWICE, (2, Sheet::Transactions([DONE, GONE, DONE]))], None),
    // Two keys in one record.
    Judged(&[OTHER_KEY], Some(Rule::Keys)),
    // The entry of another record.
    Judged(&[(7, Sheet::Leaf(&[(1, 4)]))], Some(Rule::Indexed)),
    // The entry of another key.
    Judged(&[(7, Sheet::Leaf(&[(2, 0)]))], Some(Rule::Indexed)),
    // A row without entry.
    Judged(&[NO_KEYS], Some(Rule::Indexed)),
    // A dead back version comes first.
    Judged(
        &[NO_KEYS, (2, Sheet::Transactions([GONE, DONE, DONE]))],
        Some(Rule::Backs),
    ),
];

#[test]
fn an_image_is_sound_or_breaks_the_rule_that_is_told_first(rt: HostRuntime) -> Result<(), Fail> {
    hold_each(&rt, rt.alloc(), JUDGED)?;
    hold_each(&rt, rt.alloc(), LINKED)?;
    hold_each(&rt, rt.alloc(), DRAWN)
}

// Pages of a disk, and whether no database was made on it yet.
struct Unmade(&'static [Sheet], bool);

impl Case for Unmade {
    fn holds(&self, alloc: Global) -> Result<bool, Fail> {
        let image = image_of(alloc, self.0, &[])?;
        Ok(is_unmade(alloc, &image, RowCoding::Plain)? == self.1)
    }
}

const UNMADE: &[Unmade] = &[
    // A sound database without an index, whose header is damaged.
    Unmade(
        &[
            Sheet::Zero,
            Sheet::Inventory(8),
            Sheet::Transactions([DONE, DONE, DONE]),
            Sheet::Pointers(&[4]),
            Sheet::Catalog(&[K, V, INDEXED]),
            Sheet::Pointers(&[6]),
            Sheet::Cells(TWO),
        ],
        false,
    ),
    // A new database without a header.
    Unmade(
        &[
            Sheet::Zero,
            Sheet::Inventory(7),
            Sheet::Transactions([LIVE, LIVE, LIVE]),
            Sheet::Pointers(&[4]),
            Sheet::Catalog(&[KV, K, V]),
            Sheet::Pointers(&[6]),
            Sheet::Cells(&[]),
        ],
        true,
    ),
];

#[test]
fn the_pages_of_a_new_database_are_known_and_no_others(rt: HostRuntime) -> Result<(), Fail> {
    hold_each(&rt, rt.alloc(), UNMADE)
}
