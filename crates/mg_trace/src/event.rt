//! Events are put, part by part.

ghost use Rattle.std.specs.Prelude.{◌≡◌, ◌++◌, codes, if◌then◌else◌};
ghost use Rattle.mg_model.specs.declared.event.Event.TheVariants as events;
ghost use Rattle.mg_trace.specs.Putting.{Puts};
ghost use Rattle.mg_trace.specs.Text.{by_text, event_text, mode_text, named_text};

use crate::expression::put_filter;
use crate::trace::Trace;
use mg_base::TxNo;
use mg_expr::Expr;
use mg_model::{Event, Mode};
use mg_value::{Key, Name, Row};

/// Puts an event.
pub(crate) fn put_event(trace: &mut Trace, event: &Event)
    ensures { Puts trace.old trace.new (event_text event.now) }
{
    match event {
        Event::Begin(session, mode) => put_begin(trace, *session, *mode),
        Event::Look(t) => put_by(trace, "LOOK ", t.0),
        Event::Find(t, table, filter) => put_find(trace, *t, table, filter),
        Event::Claim(t, table) => put_named(trace, "CLAIM ", *t, table),
        Event::Insert(t, table, row) => put_insert(trace, *t, table, row),
        Event::Change(t, table, key, row) => put_change(trace, *t, table, key, row),
        Event::Erase(t, table, key) => put_erase(trace, *t, table, key),
        Event::Mark(t) => put_by(trace, "MARK ", t.0),
        Event::UndoMark(t) => put_by(trace, "UNDOMARK ", t.0),
        Event::Savepoint(t, name) => put_named(trace, "SAVEPOINT ", *t, name),
        Event::BackTo(t, name) => put_named(trace, "BACKTO ", *t, name),
        Event::Prepare(t) => put_by(trace, "PREPARE ", t.0),
        Event::Commit(t) => put_by(trace, "COMMIT ", t.0),
        Event::Rollback(t) => put_by(trace, "ROLLBACK ", t.0),
        Event::Decide(t, commit) => put_decide(trace, *t, *commit),
    }
}

/// Puts that a session begins a transaction.
pub(crate) fn put_begin(trace: &mut Trace, session: u8, mode: Mode)
    ensures { Puts trace.old trace.new (event_text (events.Begin session mode)) }
{
    put_by(trace, "BEGIN ", u32::from(session));
    trace.word(" ");
    put_mode(trace, mode);
}

// Puts how a transaction runs.
fn put_mode(trace: &mut Trace, mode: Mode)
    ensures { Puts trace.old trace.new (mode_text mode) }
{
    put_either(trace, mode.read_only, "RO", "RW");
    put_either(trace, mode.wait, " WAIT", " NOWAIT");
    put_either(trace, mode.snapshot, " SNAPSHOT", " RC");
}

// Puts the first of two words, or the second.
fn put_either(trace: &mut Trace, is_first: bool, first: &str, second: &str)
    ensures { Puts trace.old trace.new (if is_first then first.now else second.now) }
{
    if is_first {
        trace.word(first);
    } else {
        trace.word(second);
    }
}

/// Puts an event that has a transaction alone: the word, and the transaction.
pub(crate) fn put_by(trace: &mut Trace, word: &str, t: u32)
    ensures { Puts trace.old trace.new (by_text word.now t) }
{
    trace.word(word);
    trace.number(u64::from(t));
}

/// Puts an event that has a transaction and a name.
pub(crate) fn put_named(trace: &mut Trace, word: &str, t: TxNo, name: &Name)
    ensures { Puts trace.old trace.new (named_text word.now t.0 name.now) }
{
    put_by(trace, word, t.0);
    trace.word(" ");
    trace.name(name);
}

/// Puts that rows of a table are asked for.
pub(crate) fn put_find(trace: &mut Trace, t: TxNo, table: &Name, filter: &Option<Expr>)
    ensures { Puts trace.old trace.new (event_text (events.Find t table.now filter.now)) }
{
    put_named(trace, "FIND ", t, table);
    trace.word(" ");
    put_filter(trace, filter);
}

/// Puts a new row.
pub(crate) fn put_insert(trace: &mut Trace, t: TxNo, table: &Name, row: &Row)
    ensures { Puts trace.old trace.new (event_text (events.Insert t table.now row.now)) }
{
    put_named(trace, "INSERT ", t, table);
    trace.word(" ");
    trace.row(row);
}

/// Puts a row that a key comes to have.
pub(crate) fn put_change(trace: &mut Trace, t: TxNo, table: &Name, key: &Key, row: &Row)
    ensures { Puts trace.old trace.new (event_text (events.Change t table.now key.now row.now)) }
{
    put_named(trace, "CHANGE ", t, table);
    trace.word(" ");
    trace.value(key.value());
    trace.word(" ");
    trace.row(row);
}

/// Puts the key of a row that is deleted.
pub(crate) fn put_erase(trace: &mut Trace, t: TxNo, table: &Name, key: &Key)
    ensures { Puts trace.old trace.new (event_text (events.Erase t table.now key.now)) }
{
    put_named(trace, "ERASE ", t, table);
    trace.word(" ");
    trace.value(key.value());
}

// Puts a decision.
fn put_decide(trace: &mut Trace, t: TxNo, commit: bool)
    ensures { Puts trace.old trace.new (event_text (events.Decide t commit)) }
{
    put_by(trace, "DECIDE ", t.0);
    put_either(trace, commit, " COMMIT", " ROLLBACK");
}
