//! Why an event is refused.

ghost use Rattle.std.specs.Prelude.{◌≡◌};
ghost use Rattle.mg_model.specs.Refusals.{refusal_number};

use mg_base::{Field, Memory, PageNo, TxNo, TxState};
use std::fmt;

/// Why an event is refused, in the order of the refusals' numbers, which count from 1. `Display`
/// gives the printed text.
#[derive(Clone, Copy, Debug, PartialEq, Eq)]
pub enum Refusal {
    /// The row was changed by a transaction that committed after the base was taken.
    UpdateConflict {
        by: TxNo,
    },
    /// The row was changed by a transaction that is active, and this one doesn't wait.
    LockConflict {
        by: TxNo,
    },
    /// The row was changed by a transaction that is active, and this one waits for its end.
    Waits {
        on: TxNo,
    },
    /// The row was changed by a transaction that is active, and to wait for it would never end.
    Deadlock {
        by: TxNo,
    },
    /// The row was changed by a transaction in limbo.
    InLimbo {
        by: TxNo,
    },
    /// The view has a row with the key of the new one.
    DuplicateKey,
    /// The view has no row with the key.
    NoRow,
    /// A read-only transaction would write.
    ReadOnly,
    /// The session has no transaction.
    NoTransaction,
    /// The transaction isn't in the state that the event needs.
    NotActive {
        state: TxState,
    },
    /// The view has no such table.
    NoTable,
    /// The view has such a table.
    TableExists,
    /// A row of the shape would be too long. Both numbers are in bytes.
    RowTooLong {
        len: u32,
        limit: u32,
    },
    /// More pages are needed than are free below the limit.
    DatabaseFull {
        limit: u32,
    },
    /// All numbers are drawn.
    TransactionLimit,
    /// The disk failed to read: so many of its faults were counted so far.
    DiskRead {
        faults: u64,
    },
    /// The disk failed to write: so many of its faults were counted so far.
    DiskWrite {
        faults: u64,
    },
    /// An earlier call was answered `DiskWrite`, with this count.
    Offline {
        faults: u64,
    },
    /// The file isn't a database of this version: the field of page 0 and what stands there.
    NotADatabase {
        field: Field,
        found: u64,
    },
    /// A page is damaged: the field with what was found there and what was wanted.
    Damaged {
        page: PageNo,
        field: Field,
        found: u64,
        wanted: u64,
    },
    /// Want of memory.
    Memory,
}

impl From<Memory> for Refusal {
    fn from(_: Memory) -> Self {
        Refusal::Memory
    }
}

impl fmt::Display for Refusal {
    fn fmt<W: fmt::Write>(&self, f: &mut fmt::Formatter<W>) -> fmt::Result {
        f.write_str(self.text())?;
        match self {
            Refusal::UpdateConflict { by: tx }
            | Refusal::LockConflict { by: tx }
            | Refusal::Waits { on: tx }
            | Refusal::Deadlock { by: tx }
            | Refusal::InLimbo { by: tx } => write!(f, " {tx}"),
            Refusal::NotActive { state } => write!(f, " {state}"),
            Refusal::RowTooLong { len, limit } => write!(f, " {len} LIMIT {limit}"),
            Refusal::DatabaseFull { limit } => write!(f, " LIMIT {limit}"),
            Refusal::NotADatabase { field, found } => write!(f, " {field} FOUND {found}"),
            Refusal::Damaged {
                page,
                field,
                found,
                wanted,
            } => write!(f, " {page} {field} FOUND {found} WANTED {wanted}"),
            Refusal::DuplicateKey
            | Refusal::NoRow
            | Refusal::ReadOnly
            | Refusal::NoTransaction
            | Refusal::NoTable
            | Refusal::TableExists
            | Refusal::TransactionLimit
            | Refusal::DiskRead { .. }
            | Refusal::DiskWrite { .. }
            | Refusal::Offline { .. }
            | Refusal::Memory => Ok(()),
        }
    }
}

impl Refusal {
    /// What is printed of it in front of its numbers.
    fn text(&self) -> &'static str {
        match self {
            Refusal::UpdateConflict { .. } => "UPDATE CONFLICT BY",
            Refusal::LockConflict { .. } => "LOCK CONFLICT BY",
            Refusal::Waits { .. } => "WAITS ON",
            Refusal::Deadlock { .. } => "DEADLOCK BY",
            Refusal::InLimbo { .. } => "IN LIMBO",
            Refusal::DuplicateKey => "DUPLICATE KEY",
            Refusal::NoRow => "NO ROW",
            Refusal::ReadOnly => "READ ONLY",
            Refusal::NoTransaction => "NO TRANSACTION",
            Refusal::NotActive { .. } => "NOT ACTIVE",
            Refusal::NoTable => "NO TABLE",
            Refusal::TableExists => "TABLE EXISTS",
            Refusal::RowTooLong { .. } => "ROW TOO LONG",
            Refusal::DatabaseFull { .. } => "DATABASE FULL",
            Refusal::TransactionLimit => "TRANSACTION LIMIT",
            Refusal::DiskRead { .. } => "DISK READ FAULT",
            Refusal::DiskWrite { .. } => "DISK WRITE FAULT",
            Refusal::Offline { .. } => "OFFLINE",
            Refusal::NotADatabase { .. } => "NOT A DATABASE",
            Refusal::Damaged { .. } => "DAMAGED PAGE",
            Refusal::Memory => "OUT OF MEMORY",
        }
    }

    /// The number of the refusal, from 1 to 21.
    pub fn number(&self) -> u8
        ensures { result ≡ refusal_number self.now }
    {
        match self {
            Refusal::UpdateConflict { .. } => 1,
            Refusal::LockConflict { .. } => 2,
            Refusal::Waits { .. } => 3,
            Refusal::Deadlock { .. } => 4,
            Refusal::InLimbo { .. } => 5,
            Refusal::DuplicateKey => 6,
            Refusal::NoRow => 7,
            Refusal::ReadOnly => 8,
            Refusal::NoTransaction => 9,
            Refusal::NotActive { .. } => 10,
            Refusal::NoTable => 11,
            Refusal::TableExists => 12,
            Refusal::RowTooLong { .. } => 13,
            Refusal::DatabaseFull { .. } => 14,
            Refusal::TransactionLimit => 15,
            Refusal::DiskRead { .. } => 16,
            Refusal::DiskWrite { .. } => 17,
            Refusal::Offline { .. } => 18,
            Refusal::NotADatabase { .. } => 19,
            Refusal::Damaged { .. } => 20,
            Refusal::Memory => 21,
        }
    }
}
