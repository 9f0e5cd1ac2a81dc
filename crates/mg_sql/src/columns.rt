//! CREATE TABLE.

ghost use Rattle.std.specs.Prelude.{◌≡◌, ◌≤◌, ℕ, List, Bool, true, pos};
ghost use Rattle.mg_sql.specs.Reading.{IsReady, Keeps};
ghost use Rattle.mg_statements.specs.Plain.{plain_of};
ghost use Rattle.mg_sql.specs.Statements.{Rest, item, size as size_rule, kind_of_column, keyed, unnullable, definitions as definitions_item, create_table as create_table_rule, finish};
ghost use Rattle.mg_sql.specs.Going.{Goes, Never, begins_in, behind_item};
ghost use Rattle.mg_statements.specs.declared.statement.Def.{Def as AnyDef};
ghost use Rattle.mg_sql.specs.declared.token.Kind.TheVariants as kinds;
ghost use Rattle.mg_value.specs.declared.shape.Kind.{Kind as AnyType};

use crate::lists::definitions;
use crate::parser::Parser;
use crate::parts::name;
use crate::token::Kind;
use mg_statements::{Def, SqlFault, Statement};
use mg_value::Kind as Type;

/// Reads the greatest length of a VARCHAR: an integer from 1 to 1000.
fn size(p: &mut Parser) -> Result<u16, SqlFault>
    requires ready { IsReady p.old }
    ensures keeps { Keeps p.old p.new }
    ensures told { (then_ : ℕ → Rest) → Goes (λ most. most) (size_rule then_) then_ p.old p.new result }
{
    if !p.is(Kind::Integer) {
        return Err(p.syntax());
    }
    p.size()
}

/// BIGINT | VARCHAR "(" integer ")"
fn kind(p: &mut Parser) -> Result<Type, SqlFault>
    requires ready { IsReady p.old }
    ensures keeps { Keeps p.old p.new }
    ensures told { (then_ : AnyType → Rest) → Goes (λ kind. kind) (kind_of_column then_) then_ p.old p.new result }
{
    if p.takes(Kind::Bigint) {
        return Ok(Type::Int);
    }
    p.expect(Kind::Varchar)?;
    p.expect(Kind::Open)?;
    let most = size(p)?;
    p.expect(Kind::Close)?;
    Ok(Type::Text(most))
}

/// [PRIMARY KEY]
fn key(p: &mut Parser) -> Result<bool, SqlFault>
    requires ready { IsReady p.old }
    ensures keeps { Keeps p.old p.new }
    ensures told { (then_ : Bool → Rest) → ((x : Bool) → Never (then_ x) kinds.Primary)
        → Goes (λ key. key) (keyed then_) then_ p.old p.new result }
{
    if !p.takes(Kind::Primary) {
        return Ok(false);
    }
    p.expect(Kind::Key)?;
    Ok(true)
}

/// [NOT NULL]
fn not_null(p: &mut Parser) -> Result<bool, SqlFault>
    requires ready { IsReady p.old }
    ensures keeps { Keeps p.old p.new }
    ensures told { (then_ : Bool → Rest) → ((x : Bool) → Never (then_ x) kinds.Not)
        → Goes (λ not_null. not_null) (unnullable then_) then_ p.old p.new result }
{
    if !p.takes(Kind::Not) {
        return Ok(false);
    }
    p.expect(Kind::Null)?;
    Ok(true)
}

/// column = name (BIGINT | VARCHAR "(" integer ")") [NOT NULL] [PRIMARY KEY]
pub(crate) fn definition(p: &mut Parser) -> Result<Def, SqlFault>
    requires ready { IsReady p.old }
    ensures keeps { Keeps p.old p.new }
    ensures told { (then_ : AnyDef → Rest) → ((x : AnyDef) → begins_in behind_item (then_ x) ≡ true)
        → Goes (λ column. column) (item definitions_item then_) then_ p.old p.new result }
{
    let name = name(p)?;
    let kind = kind(p)?;
    let not_null = not_null(p)?;
    let key = key(p)?;
    Ok(Def {
        name,
        kind,
        not_null,
        key,
    })
}

/// table = CREATE TABLE name "(" column {"," column} ")"
pub(crate) fn create_table(p: &mut Parser) -> Result<Statement, SqlFault>
    requires ready { IsReady p.old }
    ensures keeps { Keeps p.old p.new }
    ensures told { Goes plain_of create_table_rule finish p.old p.new result }
{
    p.expect(Kind::Create)?;
    p.expect(Kind::Table)?;
    let name = name(p)?;
    p.expect(Kind::Open)?;
    let columns = definitions(p)?;
    p.expect(Kind::Close)?;
    Ok(Statement::Table { name, columns })
}
