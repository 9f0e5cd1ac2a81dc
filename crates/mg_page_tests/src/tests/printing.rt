//! What a fault prints.

use super::cases::{Case, hold_each};
use mg_base::{Damaged, Field, PageNo};
use mg_rle::RunFault;
use mg_rowcode::RowFault;
use mg_value::ValueFault;
use std::alloc::Global;
use std::fmt::Display;
use std::test::Fail;

/// A fault, and the words that it prints.
struct Printed<D> {
    fault: D,
    words: &'static str,
}

impl<D: Display> Case for Printed<D> {
    fn holds(&self, alloc: Global) -> Result<bool, Fail> {
        let text = format!(in alloc; "{}", self.fault)?;
        Ok(text.as_str() == self.words)
    }
}

/// Damage prints its page, its field and both numbers.
const DAMAGE: &[Printed<Damaged>] = &[Printed {
    fault: Damaged {
        page: PageNo(3),
        field: Field::PageSize,
        found: 9,
        wanted: 4,
    },
    words: "DAMAGED PAGE 3 PAGE SIZE FOUND 9 WANTED 4",
}];

/// Of packed texts.
const RUNS: &[Printed<RunFault>] = &[
    Printed {
        fault: RunFault::BadRun { at: 3 },
        words: "BAD RUN AT 3",
    },
    Printed {
        fault: RunFault::Memory,
        words: "OUT OF MEMORY",
    },
];

/// Of stored rows.
const ROWS: &[Printed<RowFault>] = &[
    Printed {
        fault: RowFault::BadRun { at: 3 },
        words: "BAD RUN AT 3",
    },
    Printed {
        fault: RowFault::BadRow { at: 4 },
        words: "BAD ROW AT 4",
    },
    Printed {
        fault: RowFault::Memory,
        words: "OUT OF MEMORY",
    },
];

/// Of values.
const VALUES: &[Printed<ValueFault>] = &[
    Printed {
        fault: ValueFault::TextTooLong { len: 4 },
        words: "TEXT TOO LONG 4",
    },
    Printed {
        fault: ValueFault::Memory,
        words: "OUT OF MEMORY",
    },
];

#[test]
fn faults_print_their_words(rt: HostRuntime) -> Result<(), Fail> {
    hold_each(&rt, rt.alloc(), DAMAGE)?;
    hold_each(&rt, rt.alloc(), RUNS)?;
    hold_each(&rt, rt.alloc(), ROWS)?;
    hold_each(&rt, rt.alloc(), VALUES)
}
