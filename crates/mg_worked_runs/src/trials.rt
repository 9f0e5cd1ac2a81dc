//! Blocks: the same runs once for each place at which something goes wrong.

use crate::bench::{Bench, Mishap, Said, let_go};
use crate::reading::{Step, Verb};
use crate::telling::{put_line, put_status, tell_step};
use mg_base::Memory;
use std::alloc::Global;

/// Numbers in a row with the same answers.
#[derive(Drop)]
struct Row {
    from: u32,
    to: u32,
    told: String,
}

/// Does the steps of a block once for each number that its first line names, each time on a copy of
/// the disk, and writes what came.
///
/// # Errors
///
/// `Memory` only.
pub fn try_block(
    rt: &HostRuntime,
    bench: &mut Bench,
    block: Option<&[Step]>,
    out: &mut String,
) -> Result<(), Memory> {
    let Some((head, steps)) = block.unwrap_or(&[]).split_first() else {
        return Ok(());
    };
    let [from, to, _] = head.numbers;
    let mut rows = Vec::new(rt.alloc());
    for number in from..to.saturating_add(1) {
        let told = try_once(rt, bench, steps, mishap_of(head.verb, number))?;
        add_row(&mut rows, number, told)?;
    }
    put_rows(rt.alloc(), &rows, out)
}

// What goes wrong in the trial with a number.
fn mishap_of(verb: Verb, number: u32) -> Mishap {
    if verb == Verb::Stops {
        Mishap::Stop(number)
    } else {
        Mishap::Fail(number)
    }
}

// Does the steps of a block on a copy of the disk. The first run has the mishap.
fn try_once(
    rt: &HostRuntime,
    bench: &mut Bench,
    steps: &[Step],
    mishap: Mishap,
) -> Result<String, Memory> {
    let mut told = String::new(rt.alloc());
    let mut copy = bench.copy(rt.alloc())?;
    let tried = try_on(rt, &mut copy, steps, mishap, &mut told);
    let_go(copy);
    tried?;
    Ok(told)
}

// Does the steps of a block. The first run has the mishap.
fn try_on(
    rt: &HostRuntime,
    bench: &mut Bench,
    steps: &[Step],
    mishap: Mishap,
    told: &mut String,
) -> Result<(), Memory> {
    let mut met = false;
    for step in steps {
        if !met && step.verb == Verb::Run {
            met = true;
            run_with(rt, bench, step, mishap, told)?;
        } else {
            tell_step(rt, bench, step, told)?;
        }
    }
    Ok(())
}

// Runs the program with a mishap, and writes the last line.
fn run_with(
    rt: &HostRuntime,
    bench: &mut Bench,
    step: &Step,
    mishap: Mishap,
    told: &mut String,
) -> Result<(), Memory> {
    let said = bench.run(rt, step.text.as_str(), step.script.as_str(), mishap)?;
    put_last(rt.alloc(), &said, told)
}

// Writes the last line that a run printed, and its status.
fn put_last(alloc: Global, said: &Said, out: &mut String) -> Result<(), Memory> {
    // The text behind the last line's end is empty, and counts.
    let count = said.printed.as_str().split('\n').count();
    for (at, line) in said.printed.as_str().split('\n').enumerate() {
        if at == count.saturating_sub(2) && !line.is_empty() {
            put_line(line, out)?;
        }
    }
    put_status(alloc, said.status, out)
}

// Adds the answers to a number: to the last row, where they are the same, or as a row of their own.
fn add_row(rows: &mut Vec<Row>, number: u32, told: String) -> Result<(), Memory> {
    if goes_on(rows, number, told.as_str()) {
        return Ok(());
    }
    rows.push(Row {
        from: number,
        to: number,
        told,
    })?;
    Ok(())
}

// Tells whether the last row has these answers, and takes the number into it then.
fn goes_on(rows: &mut Vec<Row>, number: u32, told: &str) -> bool {
    let Some(row) = rows.last_mut() else {
        return false;
    };
    if row.told.as_str() != told {
        return false;
    }
    row.to = number;
    true
}

// Writes rows: the numbers of each, and their answers in one line.
fn put_rows(alloc: Global, rows: &[Row], out: &mut String) -> Result<(), Memory> {
    for row in rows {
        put_numbers(alloc, row.from, row.to, out)?;
        put_answers(row.told.as_str(), out)?;
    }
    Ok(())
}

// Writes the numbers of a row.
fn put_numbers(alloc: Global, from: u32, to: u32, out: &mut String) -> Result<(), Memory> {
    let numbers = if from == to {
        format!(in alloc; "{from}:")?
    } else {
        format!(in alloc; "{from} to {to}:")?
    };
    out.push_str(numbers.as_str())?;
    Ok(())
}

// Writes the lines of answers as one.
fn put_answers(told: &str, out: &mut String) -> Result<(), Memory> {
    for (at, line) in told.split('\n').enumerate() {
        if !line.is_empty() {
            out.push_str(if at == 0 { " " } else { " / " })?;
            out.push_str(line)?;
        }
    }
    out.push('\n')?;
    Ok(())
}
