//! Unpacking: run by run from the left, with a test of each run against those before it.

ghost use Rattle.std.specs.Prelude.{◌≡◌, ◌+◌, ◌-◌, ◌^◌, ◌<◌, ◌≤◌, ◌++◌, ◌↔◌, length, take, max, OnOk, OnErr, IfErr, IfSome, IfNone, IsTrue};
ghost use Rattle.std.specs.Bool.{OnTrue, OnFalse};
ghost use Rattle.mg_rle.specs.Runs.{plain_of_run};
ghost use Rattle.mg_rle.specs.Writing.{KeepsFront};
ghost use Rattle.mg_rle.specs.Reading.{AppendsPlain, Refuses, Announces, BeginsWithNone, Allows, SomeTriple, NoTriple, HasRead, run_in, reader_after, end_of_new};

use crate::RunFault;
use crate::reading::{Control, Next, Reader};
use crate::run::{LEAST_REPEAT, MOST_LITERAL, MOST_REPEAT, triple_begins};
use mg_base::Memory;

/// What the control byte at the front announces, if all of its run is there.
fn control_of(rest: &[u8]) -> Option<Control>
    requires { 0 < length rest.now }
    ensures some { IfSome result (λ control. Announces control rest.now) }
    ensures none { IfNone result (BeginsWithNone rest.now) }
{
    let control = rest[0] as usize;
    if control >= 256 - MOST_REPEAT && control <= 256 - LEAST_REPEAT && rest.len() > 1 {
        Some(Control::Repeat(256 - control))
    } else if control > 0 && control <= MOST_LITERAL && rest.len() > control {
        Some(Control::Literal(control))
    } else {
        None
    }
}

/// Tells whether the run at the front may come next.
fn allows(next: Next, control: Control, rest: &[u8]) -> bool
    requires { Announces control rest.now }
    ensures { IsTrue result ↔ Allows next (run_in control rest.now) }
{
    match next {
        Next::Any => true,
        Next::Repeated => matches!(control, Control::Repeat(_)),
        Next::Unlike(byte) => rest[1] != byte,
    }
}

/// Appends so many bytes from the front.
fn append_front(bytes: &[u8], count: usize, out: &mut Vec<u8>) -> Result<(), RunFault>
    requires { count ≤ length bytes.now }
    ensures ok { OnOk result (out.new.items ≡ out.old.items ++ take count bytes.now) }
    ensures err { OnErr result (out.new.items ≡ out.old.items) }
    ensures memory { IfErr result (λ fault. fault ≡ RunFault.Memory) }
{
    out.extend_from_slice(&bytes[..count])?;
    Ok(())
}

/// Appends what the run at the front stands for.
fn append_run(control: Control, rest: &[u8], out: &mut Vec<u8>) -> Result<(), RunFault>
    requires { Announces control rest.now }
    ensures ok { OnOk result
        (out.new.items ≡ out.old.items ++ plain_of_run (run_in control rest.now)) }
    ensures err { OnErr result (out.new.items ≡ out.old.items) }
    ensures memory { IfErr result (λ fault. fault ≡ RunFault.Memory) }
{
    match control {
        Control::Literal(count) => append_front(&rest[1..], count, out)?,
        Control::Repeat(count) => append_front(&[rest[1]; MOST_REPEAT], count, out)?,
    }
    Ok(())
}

/// Tells whether three equal bytes stand from `from` on and before `end`.
fn has_triple(bytes: &[u8], from: usize, end: usize) -> bool
    requires { end ≤ length bytes.now }
    ensures yes { OnTrue result (SomeTriple bytes.now from end) }
    ensures no { OnFalse result (NoTriple bytes.now from end) }
{
    let mut at = from;
    while at < end && end - at > 2 {
        if triple_begins(bytes, at) {
            return true;
        }
        at += 1;
    }
    false
}

/// Tells whether three equal bytes that begin in a literal have come up with the last run.
///
/// `out` has the bytes of the run at its end, and had `len` bytes before. Of the bytes before the
/// run only the last two can be the first of three that weren't all there.
fn breaks_literal(reader: &Reader, control: Control, len: usize, out: &[u8]) -> bool
    requires { end_of_new control len ≤ length out.now }
    ensures yes { OnTrue result
        (SomeTriple out.now (max reader.now.literals (len - 2)) (end_of_new control len)) }
    ensures no { OnFalse result
        (NoTriple out.now (max reader.now.literals (len - 2)) (end_of_new control len)) }
{
    let from = reader.literals.max(len.saturating_sub(2));
    match control {
        Control::Literal(count) => has_triple(out, from, len + count),
        Control::Repeat(_) => has_triple(out, from, len + 2),
    }
}

/// The reader behind the run at the front.
fn pass_run(reader: &Reader, control: Control, rest: &[u8], len: usize) -> Reader
    requires front { Announces control rest.now }
    requires place { reader.now.at + length rest.now < 2 ^ 31 }
    requires room { len + MOST_REPEAT < 2 ^ 64 }
    ensures { result ≡ reader_after reader.now (run_in control rest.now) len }
{
    match control {
        Control::Literal(count) => Reader {
            at: reader.at + 1 + count,
            next: if count == MOST_LITERAL {
                Next::Any
            } else {
                Next::Repeated
            },
            ..*reader
        },
        Control::Repeat(count) => Reader {
            at: reader.at + 2,
            next: if count == MOST_REPEAT {
                Next::Any
            } else {
                Next::Unlike(rest[1])
            },
            literals: len + count,
            ..*reader
        },
    }
}

/// Reads one more run, and appends what it stands for.
fn read_run(packed: &[u8], reader: &mut Reader, out: &mut Vec<u8>) -> Result<(), RunFault>
    requires read { HasRead packed.now reader.old out.old.items }
    requires more { reader.old.at < length packed.now }
    requires most { length packed.now < 2 ^ 31 }
    ensures ok { OnOk result (HasRead packed.now reader.new out.new.items) }
    ensures further { OnOk result (reader.old.at < reader.new.at) }
    ensures start { reader.new.start ≡ reader.old.start }
    ensures err { IfErr result (Refuses packed.now) }
    ensures front { KeepsFront out.old.items out.new.items }
{
    let (_, rest) = packed.split_at(reader.at);
    let fault = RunFault::BadRun {
        at: reader.at as u32,
    };
    let Some(control) = control_of(rest) else {
        return Err(fault);
    };
    if !allows(reader.next, control, rest) {
        return Err(fault);
    }
    let len = out.len();
    append_run(control, rest, out)?;
    if breaks_literal(reader, control, len, out) {
        return Err(fault);
    }
    *reader = pass_run(reader, control, rest, len);
    Ok(())
}

/// Appends the plain text of `packed`. On a fault some of it may stand in `out`.
fn read_runs(packed: &[u8], out: &mut Vec<u8>) -> Result<(), RunFault>
    requires { length packed.now < 2 ^ 31 }
    ensures ok { OnOk result (AppendsPlain out.old.items out.new.items packed.now) }
    ensures err { IfErr result (Refuses packed.now) }
    ensures front { KeepsFront out.old.items out.new.items }
{
    let start = out.len();
    let mut reader = Reader {
        at: 0,
        start,
        literals: start,
        next: Next::Any,
    };
    while reader.at < packed.len() {
        read_run(packed, &mut reader, out)?;
    }
    Ok(())
}

/// Appends the plain text of a packed text: the one whose packed text it is.
///
/// # Errors
///
/// `BadRun` exactly where `packed` is no packed text, with the place in it of the first run that
/// breaks the rule; or `Memory`. Then `out` is as before.
pub fn unpack(packed: &[u8], out: &mut Vec<u8>) -> Result<(), RunFault>
    requires { length packed.now < 2 ^ 31 }
    ensures ok { OnOk result (AppendsPlain out.old.items out.new.items packed.now) }
    ensures refused { IfErr result (Refuses packed.now) }
    ensures err { OnErr result (out.new.items ≡ out.old.items) }
{
    let before = out.len();
    let result = read_runs(packed, out);
    if result.is_err() {
        out.truncate(before);
    }
    result
}
