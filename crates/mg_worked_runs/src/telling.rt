//! The transcript of steps.

use crate::bench::{Bench, Frame, Mishap, Said, let_go};
use crate::reading::{Step, Verb};
use crate::trials::try_block;
use mg_base::Memory;
use std::alloc::Global;

/// The most lines of a run that are all written.
const LINES_MOST: usize = 40;

/// How many of the first and of the last lines are written of a longer one.
const LINES_KEPT: usize = 3;

/// The transcript of descriptions, which begin on a blank disk.
///
/// # Errors
///
/// `Memory` only.
pub fn tell_all(rt: &HostRuntime, steps: &[Step]) -> Result<String, Memory> {
    let mut out = String::new(rt.alloc());
    let mut bench = Bench::new(rt.alloc(), Frame::USUAL)?;
    let told = tell_each(rt, &mut bench, steps, &mut out);
    let_go(bench);
    told?;
    Ok(out)
}

// Does all steps, and writes what came.
fn tell_each(
    rt: &HostRuntime,
    bench: &mut Bench,
    steps: &[Step],
    out: &mut String,
) -> Result<(), Memory> {
    // Where the block begins in which the step is.
    let mut block = None;
    for (at, step) in steps.iter().enumerate() {
        put_head(step, at, out)?;
        block = tell_next(rt, bench, steps, at, block, out)?;
    }
    Ok(())
}

// Does the step at a place, or the block that it ends, and tells where the block begins in which the
// next step is.
fn tell_next(
    rt: &HostRuntime,
    bench: &mut Bench,
    steps: &[Step],
    at: usize,
    block: Option<usize>,
    out: &mut String,
) -> Result<Option<usize>, Memory> {
    let Some(step) = steps.get(at) else {
        return Ok(None);
    };
    match block {
        Some(begun) if step.verb == Verb::End => {
            try_block(rt, bench, steps.get(begun..at), out)?;
            Ok(None)
        }
        Some(begun) => Ok(Some(begun)),
        None if is_block(step.verb) => Ok(Some(at)),
        None => {
            tell_step(rt, bench, step, out)?;
            Ok(None)
        }
    }
}

// Whether a step begins a block.
fn is_block(verb: Verb) -> bool {
    verb == Verb::Stops || verb == Verb::Fails
}

// Writes the line of a step itself. Headings stand apart.
fn put_head(step: &Step, at: usize, out: &mut String) -> Result<(), Memory> {
    if step.verb == Verb::Heading && at > 0 {
        out.push('\n')?;
    }
    put_line(step.text.as_str(), out)
}

/// Does a step, and writes what came.
///
/// # Errors
///
/// `Memory` only.
pub fn tell_step(
    rt: &HostRuntime,
    bench: &mut Bench,
    step: &Step,
    out: &mut String,
) -> Result<(), Memory> {
    match step.verb {
        Verb::Prose => Ok(()),
        Verb::Run => tell_run(rt, bench, step, out),
        Verb::Writes | Verb::Pages | Verb::Byte => tell_disk(rt.alloc(), bench, step, out),
        Verb::Set => tell_set(rt.alloc(), bench, step.numbers, out),
        Verb::Unknown | Verb::Stops | Verb::Fails | Verb::End => put_line("no such line", out),
        Verb::Heading
        | Verb::Disk
        | Verb::Zero
        | Verb::Cut
        | Verb::Take
        | Verb::Put
        | Verb::Cache => change(rt.alloc(), bench, step.verb, step.numbers),
    }
}

// Runs the program, and writes what it printed.
fn tell_run(
    rt: &HostRuntime,
    bench: &mut Bench,
    step: &Step,
    out: &mut String,
) -> Result<(), Memory> {
    let (line, script) = (step.text.as_str(), step.script.as_str());
    let said = bench.run(rt, line, script, Mishap::Nothing)?;
    put_said(rt.alloc(), &said, out)
}

// Writes what is asked of the disk.
fn tell_disk(
    alloc: Global,
    bench: &mut Bench,
    step: &Step,
    out: &mut String,
) -> Result<(), Memory> {
    let [a, b, _] = step.numbers;
    match step.verb {
        Verb::Writes => put_count(alloc, bench.take_written(), " page writes", out),
        Verb::Pages => put_count(alloc, bench.pages() as usize, " pages", out),
        _ => put_byte(alloc, bench.byte(alloc, a, b)?, out),
    }
}

// Sets a byte, or writes that it is not there.
fn tell_set(
    alloc: Global,
    bench: &mut Bench,
    numbers: [u32; 3],
    out: &mut String,
) -> Result<(), Memory> {
    let [page, at, value] = numbers;
    if bench.set(alloc, page, at, value)? {
        return Ok(());
    }
    put_line("no such byte", out)
}

// Changes the disk, or what is asked of the next runs on it.
fn change(alloc: Global, bench: &mut Bench, verb: Verb, numbers: [u32; 3]) -> Result<(), Memory> {
    let [a, b, c] = numbers;
    match verb {
        Verb::Disk => bench.renew(alloc, frame_of(a, b, c)),
        Verb::Zero => bench.zero(alloc, a),
        Verb::Cut => bench.cut(alloc, a, b),
        Verb::Take => {
            bench.bad_take = a;
            Ok(())
        }
        Verb::Put => {
            bench.bad_put = a;
            Ok(())
        }
        Verb::Cache => {
            bench.clean = a;
            Ok(())
        }
        _ => bench.renew(alloc, Frame::USUAL),
    }
}

fn frame_of(size: u32, pages: u32, writes: u32) -> Frame {
    Frame {
        size,
        pages,
        writes,
    }
}

// Writes a number and what it counts.
fn put_count(alloc: Global, count: usize, what: &str, out: &mut String) -> Result<(), Memory> {
    out.push_str(format!(in alloc; "{count}")?.as_str())?;
    put_line(what, out)
}

// Writes a byte in hexadecimal.
fn put_byte(alloc: Global, byte: Option<u8>, out: &mut String) -> Result<(), Memory> {
    match byte {
        Some(byte) => put_line(format!(in alloc; "{byte:02x}")?.as_str(), out),
        None => put_line("no such byte", out),
    }
}

// Writes what a run printed, and its status.
fn put_said(alloc: Global, said: &Said, out: &mut String) -> Result<(), Memory> {
    let count = said.printed.as_str().split('\n').count();
    // The text behind the last line's end is empty, and counts.
    if count <= LINES_MOST + 1 {
        out.push_str(said.printed.as_str())?;
    } else {
        put_ends(alloc, said.printed.as_str(), count, out)?;
    }
    put_status(alloc, said.status, out)
}

// Writes the first and the last lines of a text of so many.
fn put_ends(alloc: Global, printed: &str, count: usize, out: &mut String) -> Result<(), Memory> {
    let later = count.saturating_sub(LINES_KEPT + 1);
    for (at, line) in printed.split('\n').enumerate() {
        if at == LINES_KEPT {
            let left = later.saturating_sub(LINES_KEPT);
            out.push_str(format!(in alloc; ".. {left} lines more ..\n")?.as_str())?;
        }
        if (at < LINES_KEPT || at >= later) && !line.is_empty() {
            put_line(line, out)?;
        }
    }
    Ok(())
}

/// Writes the status of a run.
///
/// # Errors
///
/// `Memory` only.
pub fn put_status(alloc: Global, status: u8, out: &mut String) -> Result<(), Memory> {
    put_line(format!(in alloc; "status {status}")?.as_str(), out)
}

/// Writes a line.
///
/// # Errors
///
/// `Memory` only.
pub fn put_line(line: &str, out: &mut String) -> Result<(), Memory> {
    out.push_str(line)?;
    out.push('\n')?;
    Ok(())
}
