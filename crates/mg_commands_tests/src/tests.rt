//! Command lines as a shell gives them.

use mg_commands::are_words;
use std::alloc::Global;
use std::process::Abort;
use std::test::Fail;

/// Tells whether the words of a line, split at blanks, are a command line.
fn is_line(alloc: Global, line: &str) -> Result<bool, Fail> {
    let mut words = Vec::new(alloc);
    for word in line.split(' ') {
        words.push(String::from_str(alloc, word)?)?;
    }
    Ok(are_words(&words))
}

/// Wants each line to be one, or none to be.
fn want_each(rt: &impl Abort, alloc: Global, lines: &[&str], wanted: bool) -> Result<(), Fail> {
    for line in lines {
        assert!(rt; is_line(alloc, line)? == wanted, "{line}");
    }
    Ok(())
}

const LINES: &[&str] = &[
    "mgdb run a.db",
    "mgdb run a.db --stop 0",
    "mgdb run a.db --limit 16 --stop 7 --page 1024",
    "mgdb run run --page 16384 --limit 131072",
    "mgdb run a.db --stop 4294967295",
    "mgdb storm a.db",
    "mgdb storm a.db --limit 20 --page 2048",
    "mgdb load a.db 1",
    "mgdb load a.db 100000 --stop 3 --page 8192",
    "mgdb gstat a.db",
    "mgdb gfix a.db validate",
    "mgdb gfix a.db validate --stop 1",
    "mgdb gfix a.db list",
    "mgdb gfix a.db commit 0",
    "mgdb gfix a.db commit 4294967295 --stop 1",
    "mgdb gfix a.db rollback 2",
    "mgdb gfix a.db sweep --stop 0",
];

const OTHER_LINES: &[&str] = &[
    "mgdb",
    "mgdb run",
    "mgdb walk a.db",
    "mgdb help",
    "mgdb run -x",
    "mgdb run --page 1024",
    "mgdb run a.db --page",
    "mgdb run a.db --page 1000",
    "mgdb run a.db --page 01024",
    "mgdb run a.db --page +1024",
    "mgdb run a.db --limit 15",
    "mgdb run a.db --limit 131073",
    "mgdb run a.db --stop 4294967296",
    "mgdb run a.db --stop 12345678901",
    "mgdb run a.db --stop 1 --stop 1",
    "mgdb run a.db --stop=1",
    "mgdb run a.db --",
    "mgdb run a.db --help",
    "mgdb run a.db -V",
    "mgdb run a.db b.db",
    "mgdb --stop 1 run a.db",
    "mgdb storm a.db --stop 1",
    "mgdb load a.db",
    "mgdb load a.db 0",
    "mgdb load a.db 100001",
    "mgdb load a.db 010",
    "mgdb load a.db --stop 1 10",
    "mgdb gstat a.db --stop 1",
    "mgdb gstat a.db x",
    "mgdb gfix a.db",
    "mgdb gfix validate a.db",
    "mgdb gfix a.db Validate",
    "mgdb gfix a.db validate 2",
    "mgdb gfix a.db validate --page 1024",
    "mgdb gfix a.db list --limit 16",
    "mgdb gfix a.db commit",
    "mgdb gfix a.db commit --stop 1",
    "mgdb gfix a.db commit 01",
    "mgdb gfix a.db commit 2 3",
    "mgdb gfix a.db rollback 4294967296",
    "mgdb gfix a.db sweep 100",
];

#[test]
fn each_command_has_its_words(rt: HostRuntime) -> Result<(), Fail> {
    want_each(&rt, rt.alloc(), LINES, true)
}

#[test]
fn other_words_are_no_command_line(rt: HostRuntime) -> Result<(), Fail> {
    want_each(&rt, rt.alloc(), OTHER_LINES, false)
}
