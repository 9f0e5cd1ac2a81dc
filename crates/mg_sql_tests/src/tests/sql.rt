//! Which texts are statements, and the fault of each that is none.

use super::cases::{Case, hold_each};
use super::texts::nested;
use mg_sql::parse;
use mg_statements::{SqlFault, let_go};
use std::alloc::Global;
use std::test::Fail;

/// The fault of a text.
fn fault_of(alloc: Global, text: &[u8]) -> Option<SqlFault> {
    match parse(alloc, text) {
        Ok(statement) => {
            let_go(statement);
            None
        }
        Err(fault) => Some(fault),
    }
}

/// A text that is no statement, and the byte of its syntax fault.
struct Stopped(&'static [u8], u32);

impl Case for Stopped {
    fn holds(&self, alloc: Global) -> Result<bool, Fail> {
        Ok(fault_of(alloc, self.0) == Some(SqlFault::Syntax { at: self.1 }))
    }
}

const FAULTS: &[Stopped] = &[
    Stopped(b"", 0),
    Stopped(b" \t ", 3),
    Stopped(b"COMMIT; COMMIT", 8),
    Stopped(b"DELETE FROM ", 12),
    Stopped(b"DELETE FROM SELECT", 12),
    Stopped(b"CREATE INDEX X ON T (C)", 7),
    Stopped(b"CREATE TABLE T (A VARCHAR(1001))", 26),
    Stopped(b"CREATE TABLE T (A VARCHAR(0))", 26),
    Stopped(b"SELECT A = B = C FROM T", 13),
    Stopped(b"SELECT A = NOT B FROM T", 11),
    Stopped(b"SELECT 'a'' FROM T", 10),
    Stopped(b"SELECT # FROM T", 7),
    Stopped(b"SELECT COUNT(*), A FROM T", 17),
    Stopped(b"SET TRANSACTION READ WRITE READ ONLY", 32),
    Stopped(b"INSERT INTO T VALUES (1, 2", 26),
];

#[test]
fn a_syntax_fault_is_told_at_the_first_token_that_cannot_stand(
    rt: HostRuntime,
) -> Result<(), Fail> {
    hold_each(&rt, rt.alloc(), FAULTS)
}

/// A text that is a statement.
struct Accepted(&'static [u8]);

impl Case for Accepted {
    fn holds(&self, alloc: Global) -> Result<bool, Fail> {
        Ok(fault_of(alloc, self.0).is_none())
    }
}

const STATEMENTS: &[Accepted] = &[
    Accepted(b"SET TRANSACTION READ WRITE WAIT ISOLATION LEVEL SNAPSHOT"),
    Accepted(b"SET TRANSACTION READ WRITE READ COMMITTED;"),
    Accepted(b"commit work"),
    Accepted(b"ROLLBACK"),
    Accepted(b"Rollback Work To Savepoint s;"),
    Accepted(b"SAVEPOINT ABCDEFGHIJKLMNOPQRSTUVWXYZABCDE"),
    Accepted(b"CREATE TABLE T (K BIGINT NOT NULL PRIMARY KEY, A$1 VARCHAR(0020) NOT NULL)"),
    Accepted(b"INSERT INTO T (K, A) VALUES (-7 / 2, 'it''s')"),
    Accepted(b"UPDATE T SET A = NULL, B = B + 1 WHERE NOT K = 1 AND B IS NOT NULL"),
    Accepted(b"DELETE FROM T WHERE K <= 9223372036854775807"),
    Accepted(b"SELECT COUNT(*), SUM(A * 2) FROM T WHERE A IS NULL OR B <> 'x'"),
    Accepted(b"SELECT 1FROM KV"),
    Accepted(b"SELECT A, (B) FROM T ORDER BY A ASC"),
    Accepted(b"SELECT * FROM KV WHERE K > 1 ORDER BY V DESC;"),
    Accepted(b"SET TRANSACTION"),
];

#[test]
fn each_statement_is_read(rt: HostRuntime) -> Result<(), Fail> {
    hold_each(&rt, rt.alloc(), STATEMENTS)
}

/// A text, and its fault.
struct Faulty(&'static [u8], SqlFault);

impl Case for Faulty {
    fn holds(&self, alloc: Global) -> Result<bool, Fail> {
        Ok(fault_of(alloc, self.0) == Some(self.1))
    }
}

const LONG_TOKENS: &[Faulty] = &[
    Faulty(
        b"SAVEPOINT ABCDEFGHIJKLMNOPQRSTUVWXYZABCDEF",
        SqlFault::NameTooLong { at: 10 },
    ),
    Faulty(
        b"SELECT -9223372036854775808 FROM T",
        SqlFault::NumberTooLarge { at: 8 },
    ),
];

#[test]
fn a_token_past_its_limit_is_named_by_the_limit(rt: HostRuntime) -> Result<(), Fail> {
    hold_each(&rt, rt.alloc(), LONG_TOKENS)
}

/// A front, how many parentheses around a 1 stand behind it, a back, and the fault.
struct Leveled(&'static [u8], usize, &'static [u8], Option<SqlFault>);

impl Case for Leveled {
    fn holds(&self, alloc: Global) -> Result<bool, Fail> {
        let text = nested(alloc, self.0, self.1, b"1", self.2)?;
        Ok(fault_of(alloc, &text) == self.3)
    }
}

const LEVELS: &[Leveled] = &[
    Leveled(b"SELECT ", 32, b" FROM T", None),
    Leveled(
        b"SELECT ",
        33,
        b" FROM T",
        Some(SqlFault::TooDeep { at: 39 }),
    ),
    // The parenthesis of VALUES is a level too.
    Leveled(
        b"INSERT INTO T VALUES (",
        32,
        b")",
        Some(SqlFault::TooDeep { at: 53 }),
    ),
];

#[test]
fn the_33rd_level_is_too_deep(rt: HostRuntime) -> Result<(), Fail> {
    hold_each(&rt, rt.alloc(), LEVELS)
}

/// A front that stands before so many bytes more of one kind up to a length, and a back.
fn filled(alloc: Global, front: &[u8], fill: u8, len: usize, back: &[u8]) -> Result<Vec<u8>, Fail> {
    let mut text = Vec::new(alloc);
    text.extend_from_slice(front)?;
    text.resize(len, fill)?;
    text.extend_from_slice(back)?;
    Ok(text)
}

/// A front, the byte that fills it up, the length of both, a back, and the fault.
struct Padded(&'static [u8], u8, usize, &'static [u8], Option<SqlFault>);

impl Case for Padded {
    fn holds(&self, alloc: Global) -> Result<bool, Fail> {
        let text = filled(alloc, self.0, self.1, self.2, self.3)?;
        Ok(fault_of(alloc, &text) == self.4)
    }
}

const PADDED: &[Padded] = &[
    Padded(b"COMMIT", b' ', 65_536, b"", None),
    Padded(
        b"COMMIT",
        b' ',
        65_537,
        b"",
        Some(SqlFault::Syntax { at: 65_536 }),
    ),
    Padded(
        b"COMMIT COMMIT",
        b' ',
        70_000,
        b"",
        Some(SqlFault::Syntax { at: 7 }),
    ),
];

#[test]
fn a_text_of_more_than_65536_bytes_is_no_statement(rt: HostRuntime) -> Result<(), Fail> {
    hold_each(&rt, rt.alloc(), PADDED)
}

const LITERAL: &[Padded] = &[Padded(
    b"SELECT '",
    b'x',
    70_000,
    b"' FROM KV",
    Some(SqlFault::Syntax { at: 65_536 }),
)];

#[test]
fn a_literal_past_the_bound_is_refused_there(rt: HostRuntime) -> Result<(), Fail> {
    hold_each(&rt, rt.alloc(), LITERAL)
}

/// A fault, and its words.
struct Worded(SqlFault, &'static str);

impl Case for Worded {
    fn holds(&self, alloc: Global) -> Result<bool, Fail> {
        let words = format!(in alloc; "{}", self.0)?;
        Ok(words.as_str() == self.1)
    }
}

const WORDS: &[Worded] = &[
    Worded(SqlFault::Syntax { at: 65_536 }, "SYNTAX AT 65536"),
    Worded(SqlFault::NameTooLong { at: 1 }, "NAME TOO LONG AT 1"),
    Worded(SqlFault::NumberTooLarge { at: 2 }, "NUMBER TOO LARGE AT 2"),
    Worded(SqlFault::TooDeep { at: 39 }, "TOO DEEP AT 39"),
    Worded(SqlFault::Memory, "OUT OF MEMORY"),
];

#[test]
fn faults_print_with_their_bytes(rt: HostRuntime) -> Result<(), Fail> {
    hold_each(&rt, rt.alloc(), WORDS)
}
