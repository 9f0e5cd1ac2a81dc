//! Command lines as a shell gives them.

use super::cases::{Case, hold_each};
use mg_words::{Asked, read_words, wanted_page};
use std::alloc::Global;
use std::test::Fail;

/// The words of a line, split at blanks.
fn words_of(alloc: Global, line: &str) -> Result<Vec<String>, Fail> {
    let mut words = Vec::new(alloc);
    for word in line.split(' ') {
        words.push(String::from_str(alloc, word)?)?;
    }
    Ok(words)
}

/// Tells whether a line of words, split at blanks, asks for this, and wants pages of this size.
fn asks(alloc: Global, line: &str, asked: Option<Asked>, size: u32) -> Result<bool, Fail> {
    let words = words_of(alloc, line)?;
    Ok(read_words(&words) == asked && wanted_page(&words) == size)
}

/// A line, the page size, the limit and the stop that it asks for, and the page size that it wants.
struct Asking(&'static str, Option<u32>, Option<u32>, Option<u32>, u32);

impl Case for Asking {
    fn holds(&self, alloc: Global) -> Result<bool, Fail> {
        let asked = Asked {
            page: self.1,
            limit: self.2,
            stop: self.3,
        };
        asks(alloc, self.0, Some(asked), self.4)
    }
}

const ASKING: &[Asking] = &[
    Asking("mgdb run a.db", None, None, None, 4096),
    Asking("mgdb run a.db --stop 0", None, None, Some(0), 4096),
    Asking(
        "mgdb run a.db --limit 16 --stop 7 --page 1024",
        Some(1024),
        Some(16),
        Some(7),
        1024,
    ),
];

#[test]
fn options_come_in_any_order(rt: HostRuntime) -> Result<(), Fail> {
    hold_each(&rt, rt.alloc(), ASKING)
}

/// A line that is no command line.
struct Other(&'static str);

impl Case for Other {
    fn holds(&self, alloc: Global) -> Result<bool, Fail> {
        asks(alloc, self.0, None, 4096)
    }
}

const OTHER_LINES: &[Other] = &[
    Other("mgdb"),
    Other("mgdb run"),
    Other("mgdb walk a.db"),
    Other("mgdb run --page 1024"),
    Other("mgdb run a.db --page"),
    Other("mgdb run a.db --page 1000"),
    Other("mgdb run a.db --page 01024"),
    Other("mgdb run a.db --limit 15"),
    Other("mgdb run a.db --limit 131073"),
    Other("mgdb run a.db --stop 4294967296"),
    Other("mgdb run a.db --stop 1 --stop 1"),
    Other("mgdb run a.db --stop=1"),
    Other("mgdb run a.db --help"),
];

#[test]
fn other_words_are_no_command_line(rt: HostRuntime) -> Result<(), Fail> {
    hold_each(&rt, rt.alloc(), OTHER_LINES)
}
