//! The texts of refusals.

ghost use Rattle.std.specs.Prelude.{◌≡◌, ◌++◌, codes, decimal, OnErr, OnOk};
ghost use Rattle.mg_script.specs.Texts.{fault_text, field_word as word_of_field, outside_text, refusal_text, state_word as word_of_state};
ghost use Rattle.mg_model.specs.declared.refusal.Refusal.TheVariants as refusals;
ghost use Rattle.mg_value.specs.Values.{KeepsFront};

use crate::putting::{put_count, put_named, put_two_named, put_word};
use mg_base::{Field, Memory, PageNo, TxState};
use mg_model::Refusal;
use mg_rows::StatementFault;

/// Appends the line of a refusal that comes outside the lines of a script, with its end.
///
/// # Errors
///
/// `Memory` only. Then `out` is as before.
pub fn refusal_line(refusal: Refusal, out: &mut Vec<u8>) -> Result<(), Memory>
    ensures ok { OnOk result (out.new.items ≡ out.old.items ++ outside_text refusal) }
    ensures err { OnErr result (out.new.items ≡ out.old.items) }
{
    let begun = out.len();
    let result = put_outside(out, refusal);
    if result.is_err() {
        out.truncate(begun);
    }
    result
}

// Appends the line of a refusal outside the lines. Where memory runs out, a part of it may stand in `out`.
fn put_outside(out: &mut Vec<u8>, refusal: Refusal) -> Result<(), Memory>
    ensures ok { OnOk result (out.new.items ≡ out.old.items ++ outside_text refusal) }
    ensures front { KeepsFront out.old.items out.new.items }
{
    put_word(out, "mgdb: ")?;
    put_refusal(out, refusal)?;
    put_word(out, "\n")
}

/// Appends the text of a statement's refusal.
pub(crate) fn put_fault(out: &mut Vec<u8>, fault: StatementFault) -> Result<(), Memory>
    ensures ok { OnOk result (out.new.items ≡ out.old.items ++ fault_text fault) }
    ensures front { KeepsFront out.old.items out.new.items }
{
    match fault {
        StatementFault::Engine(refusal) => put_refusal(out, refusal),
        StatementFault::Syntax { at } => put_named(out, "SYNTAX AT ", at),
        StatementFault::NameTooLong { at } => put_named(out, "NAME TOO LONG AT ", at),
        StatementFault::NumberTooLarge { at } => put_named(out, "NUMBER TOO LARGE AT ", at),
        StatementFault::TooDeep { at } => put_named(out, "TOO DEEP AT ", at),
        StatementFault::NoColumn => put_word(out, "NO COLUMN"),
        StatementFault::TypeMismatch => put_word(out, "TYPE MISMATCH"),
        StatementFault::Arithmetic => put_word(out, "ARITHMETIC"),
        StatementFault::NullNotAllowed => put_word(out, "NULL NOT ALLOWED"),
        StatementFault::TextTooLong { len, most } => {
            put_two_named(out, "TEXT TOO LONG ", len, " LIMIT ", most)
        }
        StatementFault::KeyChange => put_word(out, "KEY CHANGE"),
        StatementFault::TooMany { limit } => put_named(out, "TOO MANY LIMIT ", limit),
        StatementFault::KeyTooLong { len, limit } => {
            put_two_named(out, "KEY TOO LONG ", len, " LIMIT ", limit)
        }
        StatementFault::NoSavepoint => put_word(out, "NO SAVEPOINT"),
        StatementFault::Busy => put_word(out, "BUSY"),
        StatementFault::ColumnExists => put_word(out, "COLUMN EXISTS"),
        StatementFault::InTransaction => put_word(out, "IN TRANSACTION"),
        StatementFault::OneKey => put_word(out, "ONE KEY"),
        StatementFault::CountMismatch => put_word(out, "COUNT MISMATCH"),
        StatementFault::NothingHeld => put_word(out, "NOTHING HELD"),
    }
}

/// Appends the text of a refusal of the machine.
///
/// # Errors
///
/// `Memory` only. Then a part of it may stand in `out`.
pub fn put_refusal(out: &mut Vec<u8>, refusal: Refusal) -> Result<(), Memory>
    ensures ok { OnOk result (out.new.items ≡ out.old.items ++ refusal_text refusal) }
    ensures front { KeepsFront out.old.items out.new.items }
{
    match refusal {
        Refusal::UpdateConflict { by } => put_named(out, "UPDATE CONFLICT BY ", by.0),
        Refusal::LockConflict { by } => put_named(out, "LOCK CONFLICT BY ", by.0),
        Refusal::Waits { on } => put_named(out, "WAITS ON ", on.0),
        Refusal::Deadlock { by } => put_named(out, "DEADLOCK BY ", by.0),
        Refusal::InLimbo { by } => put_named(out, "IN LIMBO ", by.0),
        Refusal::DuplicateKey => put_word(out, "DUPLICATE KEY"),
        Refusal::NoRow => put_word(out, "NO ROW"),
        Refusal::ReadOnly => put_word(out, "READ ONLY"),
        Refusal::NoTransaction => put_word(out, "NO TRANSACTION"),
        Refusal::NotActive { state } => put_words(out, "NOT ACTIVE ", state_word(state)),
        Refusal::NoTable => put_word(out, "NO TABLE"),
        Refusal::TableExists => put_word(out, "TABLE EXISTS"),
        Refusal::RowTooLong { len, limit } => {
            put_two_named(out, "ROW TOO LONG ", len, " LIMIT ", limit)
        }
        Refusal::DatabaseFull { limit } => put_named(out, "DATABASE FULL LIMIT ", limit),
        Refusal::TransactionLimit => put_word(out, "TRANSACTION LIMIT"),
        Refusal::DiskRead { .. } => put_word(out, "DISK READ FAULT"),
        Refusal::DiskWrite { .. } => put_word(out, "DISK WRITE FAULT"),
        Refusal::Offline { .. } => put_word(out, "OFFLINE"),
        Refusal::NotADatabase { field, found } => put_no_database(out, field, found),
        Refusal::Damaged {
            page,
            field,
            found,
            wanted,
        } => put_damaged(out, page, field, found, wanted),
        Refusal::Memory => put_word(out, "OUT OF MEMORY"),
    }
}

// The word for what has become of a transaction.
fn state_word(state: TxState) -> &'static str
    ensures { result.now ≡ word_of_state state }
{
    match state {
        TxState::Active => "ACTIVE",
        TxState::Limbo => "LIMBO",
        TxState::Dead => "DEAD",
        TxState::Committed => "COMMITTED",
    }
}

// The word for a field of a page.
fn field_word(field: Field) -> &'static str
    ensures { result.now ≡ word_of_field field }
{
    match field {
        Field::Presence => "PRESENCE",
        Field::Kind => "KIND",
        Field::Flags => "FLAGS",
        Field::Zero => "ZERO",
        Field::Own => "OWN",
        Field::Owner => "OWNER",
        Field::Sequence => "SEQUENCE",
        Field::Magic => "MAGIC",
        Field::Major => "MAJOR",
        Field::Minor => "MINOR",
        Field::PageSize => "PAGE SIZE",
        Field::Next => "NEXT",
        Field::Oit => "OIT",
        Field::Oat => "OAT",
        Field::Ost => "OST",
        Field::Link => "LINK",
        Field::Count => "COUNT",
        Field::Offset => "OFFSET",
        Field::Cell => "CELL",
        Field::Row => "ROW",
        Field::Run => "RUN",
        Field::Target => "TARGET",
        Field::Entry => "ENTRY",
        Field::Catalog => "CATALOG",
        Field::Bit => "BIT",
        Field::Indexed => "INDEXED",
        Field::Fence => "FENCE",
        Field::State => "STATE",
        Field::Key => "KEY",
        Field::Level => "LEVEL",
        Field::Format => "FORMAT",
    }
}

// Appends two words, one behind the other.
fn put_words(out: &mut Vec<u8>, first: &str, second: &str) -> Result<(), Memory>
    ensures ok { OnOk result (out.new.items ≡ out.old.items ++ (first.now ++ second.now)) }
    ensures front { KeepsFront out.old.items out.new.items }
{
    put_word(out, first)?;
    put_word(out, second)
}

// Appends that a file is no database.
fn put_no_database(out: &mut Vec<u8>, field: Field, found: u64) -> Result<(), Memory>
    ensures ok { OnOk result (out.new.items
        ≡ out.old.items ++ refusal_text (refusals.NotADatabase field found)) }
    ensures front { KeepsFront out.old.items out.new.items }
{
    put_words(out, "NOT A DATABASE ", field_word(field))?;
    put_count(out, " FOUND ", found)
}

// Appends that a page is damaged.
fn put_damaged(
    out: &mut Vec<u8>,
    page: PageNo,
    field: Field,
    found: u64,
    wanted: u64,
) -> Result<(), Memory>
    ensures ok { OnOk result (out.new.items
        ≡ out.old.items ++ refusal_text (refusals.Damaged page field found wanted)) }
    ensures front { KeepsFront out.old.items out.new.items }
{
    put_named(out, "DAMAGED PAGE ", page.0)?;
    put_words(out, " ", field_word(field))?;
    put_count(out, " FOUND ", found)?;
    put_count(out, " WANTED ", wanted)
}
