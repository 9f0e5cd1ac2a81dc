//! INSERT, UPDATE and DELETE.

ghost use Rattle.std.specs.Prelude.{ℕ, List, Option, None};
ghost use Rattle.mg_sql.specs.Reading.{IsReady, Keeps};
ghost use Rattle.mg_statements.specs.Plain.{plain_of, names_in};
ghost use Rattle.mg_sql.specs.Statements.{Rest, finish, targets as targets_rule, insert as insert_rule, update as update_rule, delete as delete_rule};
ghost use Rattle.mg_sql.specs.Going.{Goes, Never};
ghost use Rattle.mg_sql.specs.declared.token.Kind.TheVariants as kinds;

use crate::lists::{assignments, expressions, names};
use crate::parser::Parser;
use crate::parts::{filter, name};
use crate::token::Kind;
use mg_statements::{SqlFault, Statement};
use mg_value::Name;

/// ["(" name {"," name} ")"]
fn targets(p: &mut Parser) -> Result<Option<Vec<Name>>, SqlFault>
    requires ready { IsReady p.old }
    ensures keeps { Keeps p.old p.new }
    ensures told { (then_ : Option (List (List ℕ)) → Rest) → Never (then_ None) kinds.Open
        → Goes names_in (targets_rule then_) then_ p.old p.new result }
{
    if !p.takes(Kind::Open) {
        return Ok(None);
    }
    let columns = names(p)?;
    p.expect(Kind::Close)?;
    Ok(Some(columns))
}

/// insert = INSERT INTO name ["(" name {"," name} ")"] VALUES "(" expr {"," expr} ")"
pub(crate) fn insert(p: &mut Parser) -> Result<Statement, SqlFault>
    requires ready { IsReady p.old }
    ensures keeps { Keeps p.old p.new }
    ensures told { Goes plain_of insert_rule finish p.old p.new result }
{
    p.expect(Kind::Insert)?;
    p.expect(Kind::Into)?;
    let table = name(p)?;
    let columns = targets(p)?;
    p.expect(Kind::Values)?;
    p.expect(Kind::Open)?;
    let values = expressions(p, true)?;
    p.expect(Kind::Close)?;
    Ok(Statement::Insert {
        table,
        columns,
        values,
    })
}

/// update = UPDATE name SET name "=" expr {"," name "=" expr} [WHERE expr]
pub(crate) fn update(p: &mut Parser) -> Result<Statement, SqlFault>
    requires ready { IsReady p.old }
    ensures keeps { Keeps p.old p.new }
    ensures told { Goes plain_of update_rule finish p.old p.new result }
{
    p.expect(Kind::Update)?;
    let table = name(p)?;
    p.expect(Kind::Set)?;
    let sets = assignments(p)?;
    let filter = filter(p)?;
    Ok(Statement::Update {
        table,
        sets,
        filter,
    })
}

/// delete = DELETE FROM name [WHERE expr]
pub(crate) fn delete(p: &mut Parser) -> Result<Statement, SqlFault>
    requires ready { IsReady p.old }
    ensures keeps { Keeps p.old p.new }
    ensures told { Goes plain_of delete_rule finish p.old p.new result }
{
    p.expect(Kind::Delete)?;
    p.expect(Kind::From)?;
    let table = name(p)?;
    let filter = filter(p)?;
    Ok(Statement::Delete { table, filter })
}
