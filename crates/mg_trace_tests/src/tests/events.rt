//! Events with their answers, and the line of each.

use mg_base::{TxNo, TxState};
use mg_model::{Answer, Event, Mode, Refusal, Rows};
use mg_trace::Trace;
use mg_value::{Key, Name, Row, Txt, Value};
use std::alloc::Global;
use std::process::Abort;
use std::test::Fail;

/// An event of the table KV. The first number is the transaction, or the session of a beginning.
#[derive(Clone, Copy)]
enum Act {
    /// Read only, wait, snapshot.
    Begin(u8, bool, bool, bool),
    Look(u32),
    Find(u32),
    Claim(u32),
    /// A row of a number and a text.
    Insert(u32, i64, &'static [u8]),
    /// The key, and the value beside it, NULL where there is none.
    Change(u32, i64, Option<i64>),
    Erase(u32, &'static [u8]),
    Mark(u32),
    Undo(u32),
    Save(u32),
    Back(u32),
    Prepare(u32),
    Commit(u32),
    Rollback(u32),
    Decide(u32, bool),
}

/// What an event is answered.
#[derive(Clone, Copy)]
enum Said {
    Fine,
    Tx(u32),
    Rows(&'static [(i64, i64)]),
    No(Refusal),
}

pub(super) fn name(rt: &impl Abort, bytes: &[u8]) -> Name {
    match Name::new(bytes) {
        Some(name) => name,
        None => panic!(rt; "no name"),
    }
}

pub(super) fn key(rt: &impl Abort, value: Value) -> Key {
    match Key::new(value) {
        Some(key) => key,
        None => panic!(rt; "no key"),
    }
}

pub(super) fn text(alloc: Global, bytes: &[u8]) -> Result<Txt, Fail> {
    Ok(Txt::of_bytes(bytes.to_vec(alloc)?))
}

pub(super) fn row(alloc: Global, first: Value, second: Value) -> Result<Row, Fail> {
    Ok(Row::new(vec![in alloc; first, second]?))
}

/// How a transaction runs: whether it reads only, waits, and has one snapshot.
fn mode(read_only: bool, wait: bool, snapshot: bool) -> Mode {
    Mode {
        read_only,
        wait,
        snapshot,
    }
}

/// The event of an act that has a transaction alone, or a session.
fn bare(act: Act) -> Option<Event> {
    Some(match act {
        Act::Begin(session, read_only, wait, snapshot) => {
            Event::Begin(session, mode(read_only, wait, snapshot))
        }
        Act::Look(t) => Event::Look(TxNo(t)),
        Act::Mark(t) => Event::Mark(TxNo(t)),
        Act::Undo(t) => Event::UndoMark(TxNo(t)),
        Act::Prepare(t) => Event::Prepare(TxNo(t)),
        Act::Commit(t) => Event::Commit(TxNo(t)),
        Act::Rollback(t) => Event::Rollback(TxNo(t)),
        Act::Decide(t, commit) => Event::Decide(TxNo(t), commit),
        _ => return None,
    })
}

/// The event of an act that names the table or the savepoint alone.
fn naming(rt: &impl Abort, act: Act) -> Option<Event> {
    Some(match act {
        Act::Find(t) => Event::Find(TxNo(t), name(rt, b"KV"), None),
        Act::Claim(t) => Event::Claim(TxNo(t), name(rt, b"KV")),
        Act::Save(t) => Event::Savepoint(TxNo(t), name(rt, b"S_1$")),
        Act::Back(t) => Event::BackTo(TxNo(t), name(rt, b"S_1$")),
        _ => return None,
    })
}

/// A new row of a number and a text.
fn inserted(alloc: Global, number: i64, bytes: &'static [u8]) -> Result<Row, Fail> {
    row(alloc, Value::Int(number), Value::Text(text(alloc, bytes)?))
}

/// A row of a key and a number, NULL where there is none.
fn changed(alloc: Global, number: i64, beside: Option<i64>) -> Result<Row, Fail> {
    match beside {
        Some(value) => row(alloc, Value::Int(number), Value::Int(value)),
        None => row(alloc, Value::Int(number), Value::Null),
    }
}

/// The event of an act that has values. Any other begins a transaction.
fn valued(rt: &impl Abort, alloc: Global, act: Act) -> Result<Event, Fail> {
    let kv = name(rt, b"KV");
    match act {
        Act::Insert(t, number, bytes) => {
            Ok(Event::Insert(TxNo(t), kv, inserted(alloc, number, bytes)?))
        }
        Act::Change(t, number, beside) => Ok(Event::Change(
            TxNo(t),
            kv,
            key(rt, Value::Int(number)),
            changed(alloc, number, beside)?,
        )),
        Act::Erase(t, bytes) => Ok(Event::Erase(
            TxNo(t),
            kv,
            key(rt, Value::Text(text(alloc, bytes)?)),
        )),
        _ => Ok(Event::Begin(0, mode(false, true, true))),
    }
}

/// The event of an act.
fn event(rt: &impl Abort, alloc: Global, act: Act) -> Result<Event, Fail> {
    if let Some(event) = bare(act) {
        return Ok(event);
    }
    match naming(rt, act) {
        Some(event) => Ok(event),
        None => valued(rt, alloc, act),
    }
}

/// Rows of two numbers.
fn rows(alloc: Global, told: &[(i64, i64)]) -> Result<Rows, Fail> {
    let mut items = Vec::new(alloc);
    for (first, second) in told {
        items.push(row(alloc, Value::Int(*first), Value::Int(*second))?)?;
    }
    Ok(Rows::new(items))
}

/// An answer.
fn answer(alloc: Global, said: Said) -> Result<Answer, Fail> {
    match said {
        Said::Fine => Ok(Answer::Fine),
        Said::Tx(t) => Ok(Answer::Tx(TxNo(t))),
        Said::Rows(told) => Ok(Answer::Rows(rows(alloc, told)?)),
        Said::No(refusal) => Ok(Answer::No(refusal)),
    }
}

/// Ends an event.
fn let_event_go(_event: Event) {}

/// Ends an answer.
fn let_answer_go(_answer: Answer) {}

/// Adds the line of an act with what is said of it.
fn note(
    rt: &impl Abort,
    alloc: Global,
    trace: &mut Trace,
    act: Act,
    said: Said,
) -> Result<(), Fail> {
    let event = event(rt, alloc, act)?;
    let answer = answer(alloc, said)?;
    trace.note(&event, &answer);
    let_event_go(event);
    let_answer_go(answer);
    Ok(())
}

/// Acts, what they are answered, and their lines.
const LINES: &[(Act, Said, &str)] = &[
    (
        Act::Begin(0, false, true, true),
        Said::Tx(2),
        "BEGIN 0 RW WAIT SNAPSHOT -> TX 2\n",
    ),
    (
        Act::Begin(15, true, false, false),
        Said::Tx(3),
        "BEGIN 15 RO NOWAIT RC -> TX 3\n",
    ),
    (Act::Look(2), Said::Fine, "LOOK 2 -> FINE\n"),
    (Act::Find(2), Said::Rows(&[]), "FIND 2 KV ALL -> ROWS\n"),
    (
        Act::Find(2),
        Said::Rows(&[(1, 10), (2, -20)]),
        "FIND 2 KV ALL -> ROWS (1, 10) (2, -20)\n",
    ),
    (
        Act::Claim(2),
        Said::No(Refusal::Waits { on: TxNo(3) }),
        "CLAIM 2 KV -> WAITS ON 3\n",
    ),
    (
        Act::Insert(2, 1, b"it's"),
        Said::Fine,
        "INSERT 2 KV (1, 'it''s') -> FINE\n",
    ),
    (
        Act::Change(2, 1, Some(20)),
        Said::No(Refusal::UpdateConflict { by: TxNo(3) }),
        "CHANGE 2 KV 1 (1, 20) -> UPDATE CONFLICT BY 3\n",
    ),
    (
        Act::Change(2, -1, None),
        Said::Fine,
        "CHANGE 2 KV -1 (-1, NULL) -> FINE\n",
    ),
    (
        Act::Erase(2, b""),
        Said::No(Refusal::NoRow),
        "ERASE 2 KV '' -> NO ROW\n",
    ),
    (Act::Mark(2), Said::Fine, "MARK 2 -> FINE\n"),
    (
        Act::Undo(2),
        Said::No(Refusal::DatabaseFull { limit: 16 }),
        "UNDOMARK 2 -> DATABASE FULL LIMIT 16\n",
    ),
    (Act::Save(2), Said::Fine, "SAVEPOINT 2 S_1$ -> FINE\n"),
    (Act::Back(2), Said::Fine, "BACKTO 2 S_1$ -> FINE\n"),
    (Act::Prepare(2), Said::Fine, "PREPARE 2 -> FINE\n"),
    (
        Act::Commit(2),
        Said::No(Refusal::NotActive {
            state: TxState::Limbo,
        }),
        "COMMIT 2 -> NOT ACTIVE LIMBO\n",
    ),
    (Act::Rollback(3), Said::Fine, "ROLLBACK 3 -> FINE\n"),
    (
        Act::Decide(2, true),
        Said::Fine,
        "DECIDE 2 COMMIT -> FINE\n",
    ),
    (
        Act::Decide(4, false),
        Said::No(Refusal::Memory),
        "DECIDE 4 ROLLBACK -> OUT OF MEMORY\n",
    ),
];

/// The lines that were expected, one after another.
fn expected(alloc: Global) -> Result<String, Fail> {
    let mut out = String::new(alloc);
    for (_, _, line) in LINES {
        out.push_str(line)?;
    }
    Ok(out)
}

/// The trace of all acts.
fn all_noted(rt: &impl Abort, alloc: Global) -> Result<Trace, Fail> {
    let mut trace = Trace::new(alloc);
    for (act, said, _) in LINES {
        note(rt, alloc, &mut trace, *act, *said)?;
    }
    Ok(trace)
}

#[test]
fn each_kind_of_event_has_its_line(rt: HostRuntime) -> Result<(), Fail> {
    let alloc = rt.alloc();
    let trace = all_noted(&rt, alloc)?;
    let expected = expected(alloc)?;
    assert!(rt; trace.whole);
    assert!(rt; trace.text.as_slice() == expected.as_bytes());
    Ok(())
}
