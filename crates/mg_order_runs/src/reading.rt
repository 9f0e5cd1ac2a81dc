//! Descriptions of batches, read into steps.

use mg_base::Memory;
use mg_words::unsigned;
use std::alloc::Global;

/// What a line asks for.
#[derive(Clone, Copy, PartialEq, Eq)]
pub enum Verb {
    Heading,
    Prose,
    /// A line that begins as one of the others and is none.
    Unknown,
    Used,
    Next,
    Settle,
    Draw,
    Add,
    Spot,
    First,
    Push,
    Replace,
    Out,
    Table,
    Commit,
    Tree,
    Entry,
    Orders,
    Made,
    Writes,
}

/// A line, and what it asks for.
#[derive(Drop)]
pub struct Step {
    pub text: String,
    pub deed: Deed,
}

/// What is done, with the numbers of the line, and 0 where it has fewer.
#[derive(Clone, Copy)]
pub struct Deed {
    pub verb: Verb,
    pub numbers: [u32; 2],
}

/// The words of the lines that begin with `%`, and how many numbers follow each.
const VERBS: [(&str, usize, Verb); 17] = [
    ("used", 1, Verb::Used),
    ("next", 1, Verb::Next),
    ("settle", 0, Verb::Settle),
    ("draw", 1, Verb::Draw),
    ("add", 2, Verb::Add),
    ("spot", 0, Verb::Spot),
    ("first", 1, Verb::First),
    ("push", 1, Verb::Push),
    ("replace", 1, Verb::Replace),
    ("out", 0, Verb::Out),
    ("table", 0, Verb::Table),
    ("commit", 0, Verb::Commit),
    ("tree", 0, Verb::Tree),
    ("entry", 2, Verb::Entry),
    ("orders", 0, Verb::Orders),
    ("made", 0, Verb::Made),
    ("writes", 1, Verb::Writes),
];

/// Reads descriptions.
///
/// # Errors
///
/// `Memory` only.
pub fn read_steps(alloc: Global, text: &str) -> Result<Vec<Step>, Memory> {
    let mut steps = Vec::new(alloc);
    for line in text.split('\n') {
        add_line(alloc, &mut steps, line)?;
    }
    Ok(steps)
}

// Adds a line, but for an empty one.
fn add_line(alloc: Global, steps: &mut Vec<Step>, line: &str) -> Result<(), Memory> {
    if line.is_empty() {
        return Ok(());
    }
    let deed = deed_of(alloc, line)?;
    steps.push(Step {
        text: String::from_str(alloc, line)?,
        deed,
    })?;
    Ok(())
}

// What a line asks for.
fn deed_of(alloc: Global, line: &str) -> Result<Deed, Memory> {
    if line.starts_with("## ") {
        return Ok(plain(Verb::Heading));
    }
    if line.starts_with("% ") {
        let words = words_of(alloc, line)?;
        return Ok(read_deed(&words));
    }
    Ok(plain(Verb::Prose))
}

// A deed without numbers.
fn plain(verb: Verb) -> Deed {
    Deed {
        verb,
        numbers: [0, 0],
    }
}

// The words of a line, which stand between blanks.
fn words_of(alloc: Global, line: &str) -> Result<Vec<String>, Memory> {
    let mut words = Vec::new(alloc);
    for word in line.split(' ') {
        if !word.is_empty() {
            words.push(String::from_str(alloc, word)?)?;
        }
    }
    Ok(words)
}

// What a line that begins with `%` asks for.
fn read_deed(words: &[String]) -> Deed {
    if words.len() < 2 || words.len() > 4 {
        return plain(Verb::Unknown);
    }
    let Some(numbers) = read_numbers(words) else {
        return plain(Verb::Unknown);
    };
    for (name, count, verb) in VERBS.iter() {
        if words[1].as_str() == *name && words.len() == *count + 2 {
            return Deed {
                verb: *verb,
                numbers,
            };
        }
    }
    plain(Verb::Unknown)
}

// The numbers behind the first two words.
fn read_numbers(words: &[String]) -> Option<[u32; 2]> {
    let mut numbers = [0u32; 2];
    for at in 0..2usize {
        if at + 2 < words.len() {
            let Some(number) = unsigned(words[at + 2].as_bytes()) else {
                return None;
            };
            numbers[at] = number;
        }
    }
    Some(numbers)
}
