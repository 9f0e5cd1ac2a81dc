//! The statement that a text is.

ghost use Rattle.mg_sql.specs.Reading.{IsReady, Keeps, Told};
ghost use Rattle.mg_statements.specs.Plain.{Plain, plain_of};
ghost use Rattle.mg_sql.specs.Statements.{finish, statement as statement_rule};
ghost use Rattle.mg_sql.specs.Going.{Goes, Spelled};
ghost use Rattle.mg_sql.specs.Answers.{Answers};

use crate::changes::{delete, insert, update};
use crate::columns::create_table;
use crate::parser::Parser;
use crate::scanning::scan;
use crate::selecting::select;
use crate::token::Kind;
use crate::transactions::{commit, rollback, savepoint, set_transaction};
use mg_statements::{SqlFault, Statement, let_go};
use std::alloc::Global;

/// Reads a statement.
fn statement(p: &mut Parser) -> Result<Statement, SqlFault>
    requires ready { IsReady p.old }
    ensures keeps { Keeps p.old p.new }
    ensures told { Goes plain_of statement_rule finish p.old p.new result }
{
    match p.kind {
        Kind::Set => set_transaction(p),
        Kind::Commit => commit(p),
        Kind::Rollback => rollback(p),
        Kind::Savepoint => savepoint(p),
        Kind::Create => create_table(p),
        Kind::Insert => insert(p),
        Kind::Update => update(p),
        Kind::Delete => delete(p),
        Kind::Select => select(p),
        _ => Err(p.syntax()),
    }
}

/// Reads the end of a statement: [";"], and the end of the text.
fn end(p: &mut Parser) -> Result<(), SqlFault>
    requires ready { IsReady p.old }
    ensures keeps { Keeps p.old p.new }
    ensures told { (s : Plain) → Told (λ _. s) (Spelled (finish s)) 6 32 p.old p.new result }
{
    p.takes(Kind::Semicolon);
    if !p.is(Kind::End) {
        return Err(p.syntax());
    }
    Ok(())
}

/// The statement that a text is.
///
/// # Errors
///
/// The first fault of the text, told at its byte. `Syntax` at the first token, or byte that begins
/// none, or end of the text, behind which no statement can go on; a text of more than `MOST_TEXT`
/// bytes has it at byte `MOST_TEXT`, if not before. `NameTooLong` and `NumberTooLarge` at a name of
/// more than 31 bytes and an integer above 9223372036854775807 that could stand there. `TooDeep` at
/// the token that opens the 33rd level of parentheses, NOT and unary minus. Or `Memory`.
pub fn parse(alloc: Global, text: &[u8]) -> Result<Statement, SqlFault>
    ensures { Answers text.now result }
{
    let (at, end_of, kind) = scan(text, 0);
    let mut parser = Parser {
        alloc,
        text,
        at,
        end: end_of,
        kind,
    };
    let parsed = statement(&mut parser)?;
    match end(&mut parser) {
        Ok(()) => Ok(parsed),
        Err(fault) => {
            let_go(parsed);
            Err(fault)
        }
    }
}
