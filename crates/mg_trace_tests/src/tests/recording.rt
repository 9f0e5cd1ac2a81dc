//! A keeper that records, over the plain machine.

ghost use Rattle.std.specs.Prelude.{◌<◌};

use super::events::name;
use mg_base::TxNo;
use mg_model::{Changes, Mode, Opening, Placed, States};
use mg_plain::Plain;
use mg_recording::Recording;
use mg_records::Records;
use mg_value::Name;
use std::alloc::Global;
use std::process::Abort;
use std::test::Fail;

/// An opening without a table, from which numbers are drawn from 1 on.
fn empty_opening(alloc: Global) -> Opening {
    Opening {
        rows: Placed::new(Vec::new(alloc)),
        limbo: Changes::new(Vec::new(alloc)),
        states: States::new(Vec::new(alloc)),
        next: TxNo(1),
        limit: TxNo(100),
        free: 0,
    }
}

/// The plain machine there, behind a keeper that records.
fn new_recording(rt: &impl Abort, alloc: Global) -> Result<Recording<Plain>, Fail> {
    let opening = empty_opening(alloc);
    assert!(rt; opening.states.as_slice().len() + 1 == opening.next.0 as usize);
    assert!(rt; opening.next.0 <= opening.limit.0);
    Ok(Recording::new(alloc, Plain::new(alloc, &opening)?))
}

// The calls of a keeper, each told whether it is answered Ok, without what they promise.

fn begin(recording: &mut Recording<Plain>, session: u8) -> bool
    requires { session < 32 }
{
    let mode = Mode {
        read_only: false,
        wait: true,
        snapshot: true,
    };
    Records::begin(recording, session, mode).is_ok()
}

fn look(recording: &mut Recording<Plain>, t: TxNo) -> bool {
    Records::look(recording, t).is_ok()
}

fn mark(recording: &mut Recording<Plain>, t: TxNo) -> bool {
    recording.mark(t).is_ok()
}

fn undo_mark(recording: &mut Recording<Plain>, t: TxNo) -> bool {
    recording.undo_mark(t).is_ok()
}

fn savepoint(recording: &mut Recording<Plain>, t: TxNo, name: &Name) -> bool {
    recording.savepoint(t, name).is_ok()
}

fn back_to(recording: &mut Recording<Plain>, t: TxNo, name: &Name) -> bool {
    recording.back_to(t, name) == Ok(true)
}

fn rollback(recording: &mut Recording<Plain>, t: TxNo) -> bool {
    recording.rollback(t).is_ok()
}

/// The text of the calls of the test.
const LINES: &str = "BEGIN 0 RW WAIT SNAPSHOT -> TX 1
LOOK 1 -> FINE
MARK 1 -> FINE
UNDOMARK 1 -> FINE
SAVEPOINT 1 S -> FINE
BACKTO 1 S -> FINE
ROLLBACK 1 -> FINE
MARK 1 -> NOT ACTIVE DEAD
UNDOMARK 1 -> NOT ACTIVE DEAD
";

#[test]
fn each_event_of_a_keeper_has_its_line(rt: HostRuntime) -> Result<(), Fail> {
    let alloc = rt.alloc();
    let s = name(&rt, b"S");
    let t = TxNo(1);
    let mut recording = new_recording(&rt, alloc)?;
    assert!(rt; begin(&mut recording, 0));
    assert!(rt; look(&mut recording, t));
    assert!(rt; mark(&mut recording, t));
    assert!(rt; undo_mark(&mut recording, t));
    assert!(rt; savepoint(&mut recording, t, &s));
    assert!(rt; back_to(&mut recording, t, &s));
    assert!(rt; rollback(&mut recording, t));
    assert!(rt; !mark(&mut recording, t));
    assert!(rt; !undo_mark(&mut recording, t));
    assert!(rt; recording.trace.whole);
    assert!(rt; recording.trace.text.as_slice() == LINES.as_bytes());
    Ok(())
}
