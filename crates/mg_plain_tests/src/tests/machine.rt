//! Scenarios of the plain machine, event by event.

use mg_base::{Memory, TxNo, TxState};
use mg_expr::{Expr, Sign};
use mg_model::{
    Answer, CATALOG, Changes, Event, LimboChange, Mode, Opening, Placed, PlacedRow, Refusal, States,
};
use mg_plain::Plain;
use mg_value::{Key, Name, Row, Txt, Value};
use std::alloc::Global;
use std::fmt::Write;
use std::process::Abort;
use std::test::Fail;

/// An event of the table KV. The first number is the transaction.
#[derive(Clone, Copy)]
enum Act {
    Begin,
    BeginNoWait,
    BeginCommitted,
    BeginReadOnly,
    Look(u32),
    Read(u32),
    /// The rows whose K is a number.
    Seek(u32, i64),
    Claim(u32),
    Insert(u32, i64, i64),
    Change(u32, i64, i64),
    Erase(u32, i64),
    Mark(u32),
    Undo(u32),
    Save(u32),
    Back(u32),
    Prepare(u32),
    Commit(u32),
    Rollback(u32),
    Decide(u32, bool),
}

pub(super) fn name(rt: &impl Abort, bytes: &[u8]) -> Name {
    match Name::new(bytes) {
        Some(name) => name,
        None => panic!(rt; "no name"),
    }
}

fn key(rt: &impl Abort, number: i64) -> Key {
    match Key::new(Value::Int(number)) {
        Some(key) => key,
        None => panic!(rt; "no key"),
    }
}

pub(super) fn row(alloc: Global, k: i64, v: i64) -> Result<Row, Fail> {
    Ok(Row::new(vec![in alloc; Value::Int(k), Value::Int(v)]?))
}

fn text(alloc: Global, bytes: &[u8]) -> Result<Value, Fail> {
    let mut owned = Vec::new(alloc);
    owned.extend_from_slice(bytes)?;
    if owned.len() >= 1000 {
        return Ok(Value::Null);
    }
    Ok(Value::Text(Txt::new(alloc, &owned, 1000)?))
}

/// A row of the catalog: its key, the name that it says, if any, and its numbers.
type CatalogRow = (&'static [u8], Option<&'static [u8]>, &'static [i64]);

/// The rows of the table KV.
const CATALOG_ROWS: &[CatalogRow] = &[
    (b"CKV.00", Some(b"K"), &[0, 3, 1, 0]),
    (b"CKV.01", Some(b"V"), &[0, 0, 1, 1]),
    (b"TKV", None, &[0, 2, 0, 0]),
];

/// The name that a row of the catalog says.
fn said_of(alloc: Global, said: Option<&[u8]>) -> Result<Value, Fail> {
    match said {
        Some(bytes) => text(alloc, bytes),
        None => Ok(Value::Null),
    }
}

/// The values of a row of the catalog.
fn catalog_values(alloc: Global, told: &CatalogRow) -> Result<Vec<Value>, Fail> {
    let (key, said, numbers) = told;
    let mut values = Vec::new(alloc);
    values.push(text(alloc, key)?)?;
    values.push(said_of(alloc, *said)?)?;
    for number in *numbers {
        values.push(Value::Int(*number))?;
    }
    Ok(values)
}

/// A row of the catalog.
fn catalog_row(alloc: Global, table: Name, told: &CatalogRow) -> Result<PlacedRow, Fail> {
    let row = Row::new(catalog_values(alloc, told)?);
    Ok(PlacedRow { table, row })
}

/// The rows of a new database.
fn catalog_rows(rt: &impl Abort, alloc: Global) -> Result<Placed, Fail> {
    let catalog = name(rt, CATALOG);
    let mut rows = Vec::new(alloc);
    for told in CATALOG_ROWS {
        rows.push(catalog_row(alloc, catalog, told)?)?;
    }
    Ok(Placed::new(rows))
}

/// A new database.
fn new_opening(rt: &impl Abort, alloc: Global, limit: u32) -> Result<Opening, Fail> {
    let rows = catalog_rows(rt, alloc)?;
    Ok(Opening {
        rows,
        limbo: Changes::new(Vec::new(alloc)),
        states: States::new(Vec::new(alloc)),
        next: TxNo(1),
        limit: TxNo(limit),
        free: 0,
    })
}

/// The plain machine at an opening, whose numbers have to agree.
fn machine_at(rt: &impl Abort, alloc: Global, opening: &Opening) -> Result<Plain, Fail> {
    assert!(rt; opening.states.as_slice().len() + 1 == opening.next.0 as usize);
    assert!(rt; opening.next.0 <= opening.limit.0);
    Ok(Plain::new(alloc, opening)?)
}

/// A new machine, which draws numbers below the limit.
pub(super) fn new_machine(rt: &impl Abort, alloc: Global, limit: u32) -> Result<Plain, Fail> {
    let opening = new_opening(rt, alloc, limit)?;
    machine_at(rt, alloc, &opening)
}

// An end of a machine, and of an event, is written out variant by variant wherever it is proved: so
// each has one place.

/// Ends a machine.
pub(super) fn let_machine_go(_plain: Plain) {}

/// Ends an event.
fn let_event_go(_event: Event) {}

fn mode(read_only: bool, wait: bool, snapshot: bool) -> Mode {
    Mode {
        read_only,
        wait,
        snapshot,
    }
}

/// The event of an act that begins something, or sets a mark.
fn beginning(act: Act) -> Option<Event> {
    Some(match act {
        Act::Begin => Event::Begin(0, mode(false, true, true)),
        Act::BeginNoWait => Event::Begin(0, mode(false, false, true)),
        Act::BeginCommitted => Event::Begin(0, mode(false, true, false)),
        Act::BeginReadOnly => Event::Begin(0, mode(true, true, true)),
        Act::Look(t) => Event::Look(TxNo(t)),
        Act::Mark(t) => Event::Mark(TxNo(t)),
        _ => return None,
    })
}

/// The event of an act that ends something, or takes it back.
fn ending(act: Act) -> Option<Event> {
    Some(match act {
        Act::Undo(t) => Event::UndoMark(TxNo(t)),
        Act::Prepare(t) => Event::Prepare(TxNo(t)),
        Act::Commit(t) => Event::Commit(TxNo(t)),
        Act::Rollback(t) => Event::Rollback(TxNo(t)),
        Act::Decide(t, commit) => Event::Decide(TxNo(t), commit),
        _ => return None,
    })
}

/// The event of an act that names the table or the savepoint alone.
fn naming(rt: &impl Abort, act: Act) -> Option<Event> {
    Some(match act {
        Act::Read(t) => Event::Find(TxNo(t), name(rt, b"KV"), None),
        Act::Claim(t) => Event::Claim(TxNo(t), name(rt, b"KV")),
        Act::Save(t) => Event::Savepoint(TxNo(t), name(rt, b"S")),
        Act::Back(t) => Event::BackTo(TxNo(t), name(rt, b"S")),
        _ => return None,
    })
}

/// The filter K = k.
fn filter(alloc: Global, k: i64) -> Result<Expr, Fail> {
    let column = Box::new(alloc, Expr::Column(0))?;
    let number = Box::new(alloc, Expr::Integer(k))?;
    Ok(Expr::Compare(column, Sign::Equal, number))
}

/// The event by which a row comes to have a value.
fn change(rt: &impl Abort, alloc: Global, t: u32, k: i64, v: i64) -> Result<Event, Fail> {
    let row = row(alloc, k, v)?;
    Ok(Event::Change(TxNo(t), name(rt, b"KV"), key(rt, k), row))
}

/// The event of an act that has values. Any other begins a transaction.
fn valued(rt: &impl Abort, alloc: Global, act: Act) -> Result<Event, Fail> {
    let kv = name(rt, b"KV");
    match act {
        Act::Seek(t, k) => Ok(Event::Find(TxNo(t), kv, Some(filter(alloc, k)?))),
        Act::Insert(t, k, v) => Ok(Event::Insert(TxNo(t), kv, row(alloc, k, v)?)),
        Act::Change(t, k, v) => change(rt, alloc, t, k, v),
        Act::Erase(t, k) => Ok(Event::Erase(TxNo(t), kv, key(rt, k))),
        _ => Ok(Event::Begin(0, mode(false, true, true))),
    }
}

/// The event of an act.
fn event(rt: &impl Abort, alloc: Global, act: Act) -> Result<Event, Fail> {
    if let Some(event) = beginning(act) {
        return Ok(event);
    }
    if let Some(event) = ending(act) {
        return Ok(event);
    }
    match naming(rt, act) {
        Some(event) => Ok(event),
        None => valued(rt, alloc, act),
    }
}

/// Tells a row of two numbers as ` k=v`.
fn tell_row(out: &mut String, row: &Row) -> Result<(), Fail> {
    if let [Value::Int(k), Value::Int(v)] = row.as_slice() {
        write!(out, " {k}={v}")?;
    }
    Ok(())
}

/// Tells rows, each with a blank before it.
fn tell_rows(out: &mut String, rows: &[Row]) -> Result<(), Fail> {
    out.push_str("ROWS")?;
    for row in rows {
        tell_row(out, row)?;
    }
    Ok(())
}

/// Tells the number of a transaction.
fn tell_number(out: &mut String, t: TxNo) -> Result<(), Fail> {
    write!(out, "TX {t}")?;
    Ok(())
}

/// Tells a refusal.
fn tell_refusal(out: &mut String, refusal: &Refusal) -> Result<(), Fail> {
    write!(out, "{refusal}")?;
    Ok(())
}

/// Tells an answer.
fn tell(out: &mut String, answer: &Answer) -> Result<(), Fail> {
    match answer {
        Answer::Fine => Ok(out.push_str("FINE")?),
        Answer::Tx(t) => tell_number(out, *t),
        Answer::No(refusal) => tell_refusal(out, refusal),
        Answer::Rows(rows) => tell_rows(out, rows.as_slice()),
    }
}

/// An act and its answer.
type Line = (Act, &'static str);

/// Scripts that begin on a new database, each with what it shows.
const SCENARIOS: &[(&str, &[Line])] = &[
    (
        "a snapshot reads the old row, and its own write is an update conflict",
        &[
            (Act::Begin, "TX 1"),
            (Act::Insert(1, 1, 10), "FINE"),
            (Act::Commit(1), "FINE"),
            (Act::Begin, "TX 2"),
            (Act::Begin, "TX 3"),
            (Act::Change(3, 1, 20), "FINE"),
            (Act::Commit(3), "FINE"),
            (Act::Read(2), "ROWS 1=10"),
            (Act::Change(2, 1, 30), "UPDATE CONFLICT BY 3"),
            (Act::Begin, "TX 4"),
            (Act::Read(4), "ROWS 1=20"),
        ],
    ),
    (
        "where the other one was rolled back, the write succeeds",
        &[
            (Act::Begin, "TX 1"),
            (Act::Insert(1, 1, 10), "FINE"),
            (Act::Commit(1), "FINE"),
            (Act::Begin, "TX 2"),
            (Act::Begin, "TX 3"),
            (Act::Change(3, 1, 20), "FINE"),
            (Act::Rollback(3), "FINE"),
            (Act::Change(2, 1, 30), "FINE"),
            (Act::Read(2), "ROWS 1=30"),
            (Act::Change(3, 1, 40), "NOT ACTIVE DEAD"),
        ],
    ),
    (
        "one that doesn't wait meets a lock conflict",
        &[
            (Act::Begin, "TX 1"),
            (Act::Insert(1, 1, 10), "FINE"),
            (Act::BeginNoWait, "TX 2"),
            (Act::Insert(2, 1, 20), "LOCK CONFLICT BY 1"),
            (Act::Insert(2, 2, 20), "FINE"),
        ],
    ),
    (
        "one that waits meets a conflict once the other one commits",
        &[
            (Act::Begin, "TX 1"),
            (Act::Insert(1, 1, 10), "FINE"),
            (Act::Begin, "TX 2"),
            (Act::Insert(2, 1, 20), "WAITS ON 1"),
            (Act::Commit(1), "FINE"),
            (Act::Insert(2, 1, 20), "UPDATE CONFLICT BY 1"),
        ],
    ),
    (
        "one that waits writes once the other one is rolled back",
        &[
            (Act::Begin, "TX 1"),
            (Act::Insert(1, 1, 10), "FINE"),
            (Act::Begin, "TX 2"),
            (Act::Insert(2, 1, 20), "WAITS ON 1"),
            (Act::Rollback(1), "FINE"),
            (Act::Insert(2, 1, 20), "FINE"),
        ],
    ),
    (
        "two that would wait for each other are a deadlock",
        &[
            (Act::Begin, "TX 1"),
            (Act::Insert(1, 1, 10), "FINE"),
            (Act::Begin, "TX 2"),
            (Act::Insert(2, 2, 20), "FINE"),
            (Act::Insert(1, 2, 30), "WAITS ON 2"),
            (Act::Insert(2, 1, 40), "DEADLOCK BY 1"),
            (Act::Rollback(2), "FINE"),
            (Act::Insert(1, 2, 30), "FINE"),
        ],
    ),
    (
        "read committed sees each commit when a statement begins, and none within it",
        &[
            (Act::Begin, "TX 1"),
            (Act::Insert(1, 1, 10), "FINE"),
            (Act::BeginCommitted, "TX 2"),
            (Act::Look(2), "FINE"),
            (Act::Read(2), "ROWS"),
            (Act::Commit(1), "FINE"),
            (Act::Read(2), "ROWS"),
            (Act::Look(2), "FINE"),
            (Act::Read(2), "ROWS 1=10"),
        ],
    ),
    (
        "a key that was deleted before is inserted by two at once",
        &[
            (Act::Begin, "TX 1"),
            (Act::Insert(1, 5, 1), "FINE"),
            (Act::Commit(1), "FINE"),
            (Act::Begin, "TX 2"),
            (Act::Erase(2, 5), "FINE"),
            (Act::Commit(2), "FINE"),
            (Act::Begin, "TX 3"),
            (Act::BeginNoWait, "TX 4"),
            (Act::Insert(3, 5, 2), "FINE"),
            (Act::Insert(4, 5, 3), "LOCK CONFLICT BY 3"),
            (Act::Insert(3, 5, 4), "DUPLICATE KEY"),
            (Act::Commit(3), "FINE"),
            (Act::Insert(4, 5, 3), "UPDATE CONFLICT BY 3"),
        ],
    ),
    (
        "back to a savepoint, which stays",
        &[
            (Act::Begin, "TX 1"),
            (Act::Insert(1, 1, 10), "FINE"),
            (Act::Save(1), "FINE"),
            (Act::Change(1, 1, 20), "FINE"),
            (Act::Insert(1, 2, 20), "FINE"),
            (Act::Back(1), "FINE"),
            (Act::Read(1), "ROWS 1=10"),
            (Act::Erase(1, 1), "FINE"),
            (Act::Back(1), "FINE"),
            (Act::Read(1), "ROWS 1=10"),
        ],
    ),
    (
        "a statement is undone to its mark and no further",
        &[
            (Act::Begin, "TX 1"),
            (Act::Mark(1), "FINE"),
            (Act::Insert(1, 1, 10), "FINE"),
            (Act::Mark(1), "FINE"),
            (Act::Insert(1, 2, 20), "FINE"),
            (Act::Undo(1), "FINE"),
            (Act::Read(1), "ROWS 1=10"),
            (Act::Undo(1), "FINE"),
            (Act::Undo(1), "FINE"),
            (Act::Read(1), "ROWS"),
        ],
    ),
    (
        "going back to a savepoint takes the marks behind it along",
        &[
            (Act::Begin, "TX 1"),
            (Act::Save(1), "FINE"),
            (Act::Mark(1), "FINE"),
            (Act::Insert(1, 1, 10), "FINE"),
            (Act::Back(1), "FINE"),
            (Act::Insert(1, 2, 20), "FINE"),
            (Act::Undo(1), "FINE"),
            (Act::Read(1), "ROWS 2=20"),
        ],
    ),
    (
        "a transaction in limbo is in the way until it is decided",
        &[
            (Act::Begin, "TX 1"),
            (Act::Insert(1, 1, 10), "FINE"),
            (Act::Prepare(1), "FINE"),
            (Act::Commit(1), "NOT ACTIVE LIMBO"),
            (Act::Begin, "TX 2"),
            (Act::Read(2), "ROWS"),
            (Act::Insert(2, 1, 20), "IN LIMBO 1"),
            (Act::Decide(1, true), "FINE"),
            (Act::Insert(2, 1, 20), "UPDATE CONFLICT BY 1"),
            (Act::Decide(1, false), "NOT ACTIVE COMMITTED"),
            (Act::Begin, "TX 3"),
            (Act::Read(3), "ROWS 1=10"),
        ],
    ),
    (
        "rows come in key order, and those alone for which the filter is true",
        &[
            (Act::Begin, "TX 1"),
            (Act::Insert(1, 3, 30), "FINE"),
            (Act::Insert(1, -1, 10), "FINE"),
            (Act::Insert(1, 2, 20), "FINE"),
            (Act::Read(1), "ROWS -1=10 2=20 3=30"),
            (Act::Seek(1, 2), "ROWS 2=20"),
            (Act::Seek(1, 4), "ROWS"),
            (Act::Change(1, 4, 40), "NO ROW"),
        ],
    ),
    (
        "one that reads alone writes nothing, and a claim meets who has changed the table",
        &[
            (Act::BeginReadOnly, "TX 1"),
            (Act::Insert(1, 1, 10), "READ ONLY"),
            (Act::Claim(1), "READ ONLY"),
            (Act::BeginNoWait, "TX 2"),
            (Act::Claim(2), "FINE"),
            (Act::Begin, "TX 3"),
            (Act::Insert(3, 1, 10), "FINE"),
            (Act::Claim(2), "LOCK CONFLICT BY 3"),
            (Act::Claim(3), "FINE"),
        ],
    ),
];

/// Answers an event.
fn ask(plain: &mut Plain, event: &Event) -> Result<Answer, Memory> {
    plain.answer(event)
}

/// The answer to an act.
fn answer_to(rt: &impl Abort, alloc: Global, plain: &mut Plain, act: Act) -> Result<Answer, Fail> {
    let event = event(rt, alloc, act)?;
    let answer = ask(plain, &event);
    let_event_go(event);
    Ok(answer?)
}

/// Tells whether the machine answers an act so.
fn answers(
    rt: &impl Abort,
    alloc: Global,
    plain: &mut Plain,
    act: Act,
    wanted: &str,
) -> Result<bool, Fail> {
    let mut out = String::new(alloc);
    let answer = answer_to(rt, alloc, plain, act)?;
    tell(&mut out, &answer)?;
    Ok(out.as_str() == wanted)
}

/// Wants the machine to answer the acts of a script so.
fn obeys(
    rt: &impl Abort,
    alloc: Global,
    plain: &mut Plain,
    scenario: &str,
    script: &[Line],
) -> Result<(), Fail> {
    for (act, wanted) in script {
        assert!(rt;
            answers(rt, alloc, plain, *act, wanted)?,
            "{scenario}: {wanted}"
        );
    }
    Ok(())
}

/// Wants a new machine to answer the acts of a script so; it draws numbers below the limit.
fn new_one_obeys(
    rt: &impl Abort,
    alloc: Global,
    limit: u32,
    scenario: &str,
    script: &[Line],
) -> Result<(), Fail> {
    let mut plain = new_machine(rt, alloc, limit)?;
    let obeyed = obeys(rt, alloc, &mut plain, scenario, script);
    let_machine_go(plain);
    obeyed
}

/// Wants a new machine to answer the acts of each scenario so.
fn new_ones_obey(
    rt: &impl Abort,
    alloc: Global,
    scenarios: &[(&str, &[Line])],
) -> Result<(), Fail> {
    for (scenario, script) in scenarios {
        new_one_obeys(rt, alloc, 100, scenario, script)?;
    }
    Ok(())
}

#[test]
fn the_plain_machine_answers_as_the_rules_say(rt: HostRuntime) -> Result<(), Fail> {
    new_ones_obey(&rt, rt.alloc(), SCENARIOS)
}

/// Transactions to draw, where the limit is 3.
const DRAWS: &[Line] = &[
    (Act::Begin, "TX 1"),
    (Act::Begin, "TX 2"),
    (Act::Begin, "TRANSACTION LIMIT"),
    (Act::Begin, "TRANSACTION LIMIT"),
];

#[test]
fn the_last_number_is_not_drawn(rt: HostRuntime) -> Result<(), Fail> {
    new_one_obeys(&rt, rt.alloc(), 3, "a limit of 3", DRAWS)
}

/// The change of transaction 2, which is in limbo.
fn limbo_change(rt: &impl Abort, alloc: Global) -> Result<LimboChange, Fail> {
    let row = row(alloc, 1, 10)?;
    Ok(LimboChange {
        by: TxNo(2),
        table: name(rt, b"KV"),
        key: key(rt, 1),
        row: Some(row),
    })
}

/// The changes in limbo: that one alone.
fn limbo_changes(rt: &impl Abort, alloc: Global) -> Result<Changes, Fail> {
    let mut changes = Vec::new(alloc);
    changes.push(limbo_change(rt, alloc)?)?;
    Ok(Changes::new(changes))
}

/// The states of a transaction that is dead and of one in limbo.
fn dead_and_limbo(alloc: Global) -> Result<States, Fail> {
    Ok(States::new(vec![in alloc; TxState::Dead, TxState::Limbo]?))
}

/// An opening at which transaction 1 is dead, and 2 is in limbo with a row.
fn limbo_opening(rt: &impl Abort, alloc: Global) -> Result<Opening, Fail> {
    let states = dead_and_limbo(alloc)?;
    let rows = catalog_rows(rt, alloc)?;
    let limbo = limbo_changes(rt, alloc)?;
    Ok(Opening {
        rows,
        limbo,
        states,
        next: TxNo(3),
        limit: TxNo(100),
        free: 0,
    })
}

/// The machine at that opening.
fn limbo_machine(rt: &impl Abort, alloc: Global) -> Result<Plain, Fail> {
    let opening = limbo_opening(rt, alloc)?;
    machine_at(rt, alloc, &opening)
}

/// What is answered at that opening.
const IN_LIMBO: &[Line] = &[
    (Act::Begin, "TX 3"),
    (Act::Read(3), "ROWS"),
    (Act::Insert(3, 1, 20), "IN LIMBO 2"),
    (Act::Decide(1, true), "NOT ACTIVE DEAD"),
    (Act::Decide(2, true), "FINE"),
    (Act::Begin, "TX 4"),
    (Act::Read(4), "ROWS 1=10"),
];

#[test]
fn an_opening_has_its_limbo_transactions_in_the_way(rt: HostRuntime) -> Result<(), Fail> {
    let mut plain = limbo_machine(&rt, rt.alloc())?;
    let obeyed = obeys(&rt, rt.alloc(), &mut plain, "in limbo", IN_LIMBO);
    let_machine_go(plain);
    obeyed
}

/// Tells whether a refusal has this number and this text.
fn is_told(alloc: Global, refusal: &Refusal, number: u8, wanted: &str) -> Result<bool, Fail> {
    let mut out = String::new(alloc);
    tell_refusal(&mut out, refusal)?;
    Ok(refusal.number() == number && out.as_str() == wanted)
}

/// Refusals, with their numbers and their texts.
const REFUSALS: &[(Refusal, u8, &str)] = &[
    (
        Refusal::UpdateConflict { by: TxNo(7) },
        1,
        "UPDATE CONFLICT BY 7",
    ),
    (Refusal::Waits { on: TxNo(7) }, 3, "WAITS ON 7"),
    (
        Refusal::NotActive {
            state: TxState::Limbo,
        },
        10,
        "NOT ACTIVE LIMBO",
    ),
    (
        Refusal::RowTooLong {
            len: 2049,
            limit: 2048,
        },
        13,
        "ROW TOO LONG 2049 LIMIT 2048",
    ),
    (
        Refusal::DatabaseFull { limit: 7 },
        14,
        "DATABASE FULL LIMIT 7",
    ),
    (Refusal::DiskWrite { faults: 1 }, 17, "DISK WRITE FAULT"),
    (Refusal::Memory, 21, "OUT OF MEMORY"),
];

#[test]
fn refusals_have_their_numbers_and_texts(rt: HostRuntime) -> Result<(), Fail> {
    assert!(rt; matches!(Refusal::from(Memory), Refusal::Memory));
    for (refusal, number, wanted) in REFUSALS {
        assert!(rt; is_told(rt.alloc(), refusal, *number, wanted)?, "{wanted}");
    }
    Ok(())
}
