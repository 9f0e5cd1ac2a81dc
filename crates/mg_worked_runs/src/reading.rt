//! Descriptions of runs, read into steps.

use mg_base::Memory;
use mg_words::unsigned;
use std::alloc::Global;

/// What a step does.
#[derive(Clone, Copy, PartialEq, Eq)]
pub enum Verb {
    Heading,
    Prose,
    Run,
    /// A line that begins as one of the others and is none.
    Unknown,
    Disk,
    Writes,
    Pages,
    Byte,
    Set,
    Zero,
    Cut,
    Take,
    Put,
    Cache,
    Stops,
    Fails,
    End,
}

/// A step: its line, and what that asks for.
#[derive(Drop)]
pub struct Step {
    pub verb: Verb,
    pub text: String,
    /// The numbers of the line, and 0 where it has fewer.
    pub numbers: [u32; 3],
    /// The script of a run.
    pub script: String,
}

/// The words of the lines that begin with `%`, and how many numbers follow each.
const VERBS: [(&str, usize, Verb); 13] = [
    ("disk", 3, Verb::Disk),
    ("writes", 0, Verb::Writes),
    ("pages", 0, Verb::Pages),
    ("byte", 2, Verb::Byte),
    ("set", 3, Verb::Set),
    ("zero", 1, Verb::Zero),
    ("cut", 2, Verb::Cut),
    ("take", 1, Verb::Take),
    ("put", 1, Verb::Put),
    ("cache", 1, Verb::Cache),
    ("stops", 2, Verb::Stops),
    ("fails", 2, Verb::Fails),
    ("end", 0, Verb::End),
];

/// Reads descriptions.
///
/// # Errors
///
/// `Memory` only.
pub fn read_steps(alloc: Global, text: &str) -> Result<Vec<Step>, Memory> {
    let mut steps = Vec::new(alloc);
    for line in text.split('\n') {
        add_line(alloc, &mut steps, line)?;
    }
    Ok(steps)
}

/// The words of a line, which stand between blanks.
///
/// # Errors
///
/// `Memory` only.
pub fn words_of(alloc: Global, line: &str) -> Result<Vec<String>, Memory> {
    let mut words = Vec::new(alloc);
    for word in line.split(' ') {
        if !word.is_empty() {
            words.push(String::from_str(alloc, word)?)?;
        }
    }
    Ok(words)
}

// Adds a line: a step of its own, or a line of the script above it.
fn add_line(alloc: Global, steps: &mut Vec<Step>, line: &str) -> Result<(), Memory> {
    if line.starts_with("% lines ") {
        return add_lines(alloc, steps, line);
    }
    if line.starts_with("% many ") {
        return add_many(alloc, steps, line);
    }
    if line.starts_with("## ") {
        return add_step(alloc, steps, line, Verb::Heading, [0, 0, 0]);
    }
    if line.starts_with("$ ") {
        return add_step(alloc, steps, line, Verb::Run, [0, 0, 0]);
    }
    if line.starts_with("% ") {
        return add_deed(alloc, steps, line);
    }
    if add_to_script(steps, line)? || line.is_empty() {
        return Ok(());
    }
    add_step(alloc, steps, line, Verb::Prose, [0, 0, 0])
}

// Adds the step of a line that begins with `%`.
fn add_deed(alloc: Global, steps: &mut Vec<Step>, line: &str) -> Result<(), Memory> {
    let words = words_of(alloc, line)?;
    let (verb, numbers) = read_verb(&words);
    add_step(alloc, steps, line, verb, numbers)
}

// Adds a step without a script.
fn add_step(
    alloc: Global,
    steps: &mut Vec<Step>,
    line: &str,
    verb: Verb,
    numbers: [u32; 3],
) -> Result<(), Memory> {
    steps.push(Step {
        verb,
        text: String::from_str(alloc, line)?,
        numbers,
        script: String::new(alloc),
    })?;
    Ok(())
}

// Adds a line to the script of the last step, and tells whether that is a run.
fn add_to_script(steps: &mut Vec<Step>, line: &str) -> Result<bool, Memory> {
    let Some(step) = steps.last_mut() else {
        return Ok(false);
    };
    if step.verb != Verb::Run {
        return Ok(false);
    }
    step.script.push_str(line)?;
    step.script.push('\n')?;
    Ok(true)
}

// Adds a line of a script once for each number.
fn add_lines(alloc: Global, steps: &mut Vec<Step>, line: &str) -> Result<(), Memory> {
    let Some((from, to, pattern)) = read_lines(line) else {
        return add_step(alloc, steps, line, Verb::Unknown, [0, 0, 0]);
    };
    for number in from..to.saturating_add(1) {
        let filler = format!(in alloc; "{number}")?;
        add_filled(alloc, steps, pattern, filler.as_str())?;
    }
    Ok(())
}

// Adds a line of a script with a text in the place of each `#`.
fn add_filled(
    alloc: Global,
    steps: &mut Vec<Step>,
    pattern: &str,
    filler: &str,
) -> Result<(), Memory> {
    let filled = filled_in(alloc, pattern, filler)?;
    add_to_script(steps, filled.as_str())?;
    Ok(())
}

// A text so many times.
fn repeated(alloc: Global, text: &str, count: u32) -> Result<String, Memory> {
    let mut filler = String::new(alloc);
    for _ in 0..count {
        filler.push_str(text)?;
    }
    Ok(filler)
}

// Adds a line of a script with a text that is repeated.
fn add_many(alloc: Global, steps: &mut Vec<Step>, line: &str) -> Result<(), Memory> {
    let Some((count, text, pattern)) = read_many(line) else {
        return add_step(alloc, steps, line, Verb::Unknown, [0, 0, 0]);
    };
    let filler = repeated(alloc, text, count)?;
    add_filled(alloc, steps, pattern, filler.as_str())
}

// A number and what stands behind it and one blank.
fn read_number(text: &str) -> Option<(u32, &str)> {
    let Some((spelled, behind)) = text.split_once(' ') else {
        return None;
    };
    let Some(number) = unsigned(spelled.as_bytes()) else {
        return None;
    };
    Some((number, behind))
}

// Reads `% lines FROM TO LINE`.
fn read_lines(line: &str) -> Option<(u32, u32, &str)> {
    let Some(behind) = line.strip_prefix("% lines ") else {
        return None;
    };
    let Some((from, more)) = read_number(behind) else {
        return None;
    };
    let Some((to, pattern)) = read_number(more) else {
        return None;
    };
    Some((from, to, pattern))
}

// Reads `% many COUNT TEXT LINE`.
fn read_many(line: &str) -> Option<(u32, &str, &str)> {
    let Some(behind) = line.strip_prefix("% many ") else {
        return None;
    };
    let Some((count, more)) = read_number(behind) else {
        return None;
    };
    let Some((text, pattern)) = more.split_once(' ') else {
        return None;
    };
    Some((count, text, pattern))
}

// A line with a text in the place of each `#`.
fn filled_in(alloc: Global, pattern: &str, filler: &str) -> Result<String, Memory> {
    let mut line = String::new(alloc);
    for part in pattern.chars() {
        if part == '#' {
            line.push_str(filler)?;
        } else {
            line.push(part)?;
        }
    }
    Ok(line)
}

// What a line that begins with `%` asks for, and its numbers.
fn read_verb(words: &[String]) -> (Verb, [u32; 3]) {
    let unknown = (Verb::Unknown, [0, 0, 0]);
    if words.len() < 2 || words.len() > 5 {
        return unknown;
    }
    let Some(numbers) = read_numbers(words) else {
        return unknown;
    };
    for (name, count, verb) in VERBS.iter() {
        if words[1].as_str() == *name && words.len() == *count + 2 {
            return (*verb, numbers);
        }
    }
    unknown
}

// The numbers behind the first two words.
fn read_numbers(words: &[String]) -> Option<[u32; 3]> {
    let mut numbers = [0u32; 3];
    for at in 0..3usize {
        if at + 2 < words.len() {
            let Some(number) = unsigned(words[at + 2].as_bytes()) else {
                return None;
            };
            numbers[at] = number;
        }
    }
    Some(numbers)
}
