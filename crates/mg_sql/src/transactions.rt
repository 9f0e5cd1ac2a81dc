//! Statements on transactions.

ghost use Rattle.std.specs.Prelude.{Bool, true};
ghost use Rattle.mg_sql.specs.Reading.{IsReady, Keeps};
ghost use Rattle.mg_statements.specs.Plain.{plain_of};
ghost use Rattle.mg_sql.specs.Statements.{Rest, finish, waiting as waiting_rule, isolation as isolation_rule, level as level_rule, set_transaction as set_rule, modes as modes_rule, behind_read as behind_read_rule, commit as commit_rule, rollback as rollback_rule, savepoint as savepoint_rule};
ghost use Rattle.mg_sql.specs.Going.{Goes, Never};
ghost use Rattle.mg_sql.specs.declared.token.Kind.TheVariants as kinds;

use crate::parser::Parser;
use crate::parts::name;
use crate::token::Kind;
use mg_statements::{SqlFault, Statement};

/// SNAPSHOT | READ COMMITTED: whether the transaction has a snapshot.
fn level(p: &mut Parser) -> Result<bool, SqlFault>
    requires ready { IsReady p.old }
    ensures keeps { Keeps p.old p.new }
    ensures told { (then_ : Bool → Rest) → Goes (λ snapshot. snapshot) (level_rule then_) then_ p.old p.new result }
{
    if p.takes(Kind::Snapshot) {
        return Ok(true);
    }
    p.expect(Kind::Read)?;
    p.expect(Kind::Committed)?;
    Ok(false)
}

/// [[ISOLATION LEVEL] (SNAPSHOT | READ COMMITTED)]: whether the transaction has a snapshot.
fn isolation(p: &mut Parser) -> Result<bool, SqlFault>
    requires ready { IsReady p.old }
    ensures keeps { Keeps p.old p.new }
    ensures told { (then_ : Bool → Rest) → Never (then_ true) kinds.Isolation → Never (then_ true) kinds.Snapshot
        → Never (then_ true) kinds.Read → Goes (λ snapshot. snapshot) (isolation_rule then_) then_ p.old p.new result }
{
    if p.takes(Kind::Isolation) {
        p.expect(Kind::Level)?;
        return level(p);
    }
    if p.is(Kind::Snapshot) {
        return level(p);
    }
    if p.is(Kind::Read) {
        return level(p);
    }
    Ok(true)
}

/// [WAIT | NO WAIT]: whether the transaction waits.
fn waiting(p: &mut Parser) -> Result<bool, SqlFault>
    requires ready { IsReady p.old }
    ensures keeps { Keeps p.old p.new }
    ensures told { (then_ : Bool → Rest) → Never (then_ true) kinds.Wait → Never (then_ true) kinds.No
        → Goes (λ wait. wait) (waiting_rule then_) then_ p.old p.new result }
{
    if p.takes(Kind::Wait) {
        return Ok(true);
    }
    if !p.takes(Kind::No) {
        return Ok(true);
    }
    p.expect(Kind::Wait)?;
    Ok(false)
}

/// [WAIT | NO WAIT] [[ISOLATION LEVEL] (SNAPSHOT | READ COMMITTED)], where the access was read.
fn modes(p: &mut Parser, read_only: bool) -> Result<Statement, SqlFault>
    requires ready { IsReady p.old }
    ensures keeps { Keeps p.old p.new }
    ensures told { Goes plain_of (modes_rule read_only) finish p.old p.new result }
{
    let wait = waiting(p)?;
    let snapshot = isolation(p)?;
    Ok(Statement::SetTransaction {
        read_only,
        wait,
        snapshot,
    })
}

/// What stands behind SET TRANSACTION READ: WRITE or ONLY, or the COMMITTED of an isolation.
fn behind_read(p: &mut Parser) -> Result<Statement, SqlFault>
    requires ready { IsReady p.old }
    ensures keeps { Keeps p.old p.new }
    ensures told { Goes plain_of behind_read_rule finish p.old p.new result }
{
    if p.takes(Kind::Committed) {
        return Ok(Statement::SetTransaction {
            read_only: false,
            wait: true,
            snapshot: false,
        });
    }
    if p.takes(Kind::Only) {
        return modes(p, true);
    }
    p.expect(Kind::Write)?;
    modes(p, false)
}

/// set = SET TRANSACTION [READ WRITE | READ ONLY] [WAIT | NO WAIT]
///       [[ISOLATION LEVEL] (SNAPSHOT | READ COMMITTED)]
pub(crate) fn set_transaction(p: &mut Parser) -> Result<Statement, SqlFault>
    requires ready { IsReady p.old }
    ensures keeps { Keeps p.old p.new }
    ensures told { Goes plain_of set_rule finish p.old p.new result }
{
    p.expect(Kind::Set)?;
    p.expect(Kind::Transaction)?;
    if p.takes(Kind::Read) {
        return behind_read(p);
    }
    modes(p, false)
}

/// COMMIT [WORK]
pub(crate) fn commit(p: &mut Parser) -> Result<Statement, SqlFault>
    requires ready { IsReady p.old }
    ensures keeps { Keeps p.old p.new }
    ensures told { Goes plain_of commit_rule finish p.old p.new result }
{
    p.expect(Kind::Commit)?;
    p.takes(Kind::Work);
    Ok(Statement::Commit)
}

/// ROLLBACK [WORK] [TO [SAVEPOINT] name]
pub(crate) fn rollback(p: &mut Parser) -> Result<Statement, SqlFault>
    requires ready { IsReady p.old }
    ensures keeps { Keeps p.old p.new }
    ensures told { Goes plain_of rollback_rule finish p.old p.new result }
{
    p.expect(Kind::Rollback)?;
    p.takes(Kind::Work);
    if !p.takes(Kind::To) {
        return Ok(Statement::Rollback);
    }
    p.takes(Kind::Savepoint);
    let name = name(p)?;
    Ok(Statement::RollbackTo { name })
}

/// SAVEPOINT name
pub(crate) fn savepoint(p: &mut Parser) -> Result<Statement, SqlFault>
    requires ready { IsReady p.old }
    ensures keeps { Keeps p.old p.new }
    ensures told { Goes plain_of savepoint_rule finish p.old p.new result }
{
    p.expect(Kind::Savepoint)?;
    let name = name(p)?;
    Ok(Statement::Savepoint { name })
}
