//! What a transaction has changed, given back.

use super::calls::{Begins, Bench, run_each};
use mg_base::Memory;
use mg_undo::{Undo, Was};
use mg_value::{Key, Name, Value};
use std::alloc::Global;
use std::test::Fail;

/// A call, and what it answers.
#[derive(Clone, Copy)]
pub enum Call {
    /// A mark is set.
    Mark,
    /// The savepoint S is set.
    Name,
    /// A change of this key is kept, of which the transaction had changed nothing.
    Keep(i64),
    /// The change that was kept last is retracted.
    Retract,
    /// What was changed since S is to be given back, if there is S.
    BackTo(bool),
    /// This key is given back next, or nothing.
    Gives(Option<i64>),
}

/// The number that a key is.
fn number_of(key: &Key) -> Option<i64> {
    match key.value() {
        Value::Int(number) => Some(*number),
        _ => None,
    }
}

fn keep_key(undo: &mut Undo, key: &Key) -> bool {
    undo.keep(5, key, Was::Untouched).is_ok()
}

fn keep(undo: &mut Undo, number: i64) -> bool {
    match Key::new(Value::Int(number)) {
        Some(key) => keep_key(undo, &key),
        None => false,
    }
}

/// Tells whether a change that is given back is one of table 5 and this key, if there is one.
fn is_of(given: &(u32, Key, Was), wanted: Option<i64>) -> bool {
    given.0 == 5 && wanted.is_some() && number_of(&given.1) == wanted
}

/// Tells whether this key is given back next, or nothing.
fn gives(undo: &mut Undo, wanted: Option<i64>) -> bool {
    match undo.take_back() {
        Some(given) => is_of(&given, wanted),
        None => wanted.is_none(),
    }
}

/// What a transaction has changed, and the name S of its savepoint.
#[derive(Drop)]
pub struct Changes {
    undo: Undo,
    name: Name,
}

impl Bench for Changes {
    type Call = Call;

    ghost ready = { λ changes. Unit {0} };

    fn does(&mut self, _alloc: Global, call: &Call) -> bool {
        match *call {
            Call::Mark => self.undo.mark().is_ok(),
            Call::Name => self.undo.name(&self.name).is_ok(),
            Call::Keep(number) => keep(&mut self.undo, number),
            Call::Retract => {
                self.undo.retract();
                true
            }
            Call::BackTo(there) => self.undo.back_to(&self.name) == there,
            Call::Gives(wanted) => gives(&mut self.undo, wanted),
        }
    }
}

impl Begins for Changes {
    type From = ();

    /// Nothing is kept at first.
    fn begin(alloc: Global, _from: ()) -> Result<Changes, Memory> {
        match Name::new(b"S") {
            Some(name) => Ok(Changes {
                undo: Undo::new(alloc),
                name,
            }),
            None => Err(Memory),
        }
    }
}

const CHANGED_TWICE: &[Call] = &[
    Call::Mark,
    Call::Keep(1),
    Call::Keep(2),
    Call::Keep(1),
    Call::Gives(Some(2)),
    Call::Gives(Some(1)),
    Call::Gives(None),
];

/// The savepoint stays.
const BEFORE_MARK: &[Call] = &[
    Call::Name,
    Call::Mark,
    Call::Keep(1),
    Call::BackTo(true),
    Call::Gives(Some(1)),
    Call::Gives(None),
    Call::Keep(2),
    Call::Gives(None),
    Call::BackTo(true),
    Call::Gives(Some(2)),
];

/// The savepoint is gone.
const BEFORE_NAME: &[Call] = &[
    Call::Mark,
    Call::Name,
    Call::Keep(1),
    Call::Gives(Some(1)),
    Call::Gives(None),
    Call::BackTo(false),
];

const RETRACTED: &[Call] = &[
    Call::Mark,
    Call::Keep(1),
    Call::Keep(2),
    Call::Retract,
    Call::Gives(Some(1)),
    Call::Gives(None),
];

const KEPT_BEFORE: &[Call] = &[
    Call::Name,
    Call::Keep(1),
    Call::Mark,
    Call::Retract,
    Call::BackTo(true),
    Call::Gives(Some(1)),
    Call::Gives(None),
];

const RUNS: &[(&str, (), &[Call])] = &[
    (
        "a key that was changed twice comes back once",
        (),
        CHANGED_TWICE,
    ),
    (
        "a mark goes with what is taken back before it",
        (),
        BEFORE_MARK,
    ),
    (
        "a savepoint goes with what is taken back before it",
        (),
        BEFORE_NAME,
    ),
    ("a retracted change is not given", (), RETRACTED),
    (
        "what was kept before the point is not retracted",
        (),
        KEPT_BEFORE,
    ),
];

#[test]
fn what_a_transaction_has_changed_is_given_back(rt: HostRuntime) -> Result<(), Fail> {
    run_each::<Changes>(&rt, rt.alloc(), RUNS)
}
