//! The line `@get`.

ghost use Rattle.std.specs.Prelude.{◌≡◌, ◌∷◌, [], ℕ, ℤ, IfOk, None, Some, codes, map, true, false};
ghost use Rattle.mg_model.specs.declared.opening.Opening.{Opening};
ghost use Rattle.mg_model.specs.History.{Entries};
ghost use Rattle.mg_model.specs.Machine.{mode_of};
ghost use Rattle.mg_model.specs.NewDatabase.{kv_name};
ghost use Rattle.mg_records.specs.Reading.{shape_seen};
ghost use Rattle.mg_expr.specs.Trees.{Compare as CompareTree, Integer as IntegerTree, Name as NameTree, tree_of};
ghost use Rattle.mg_statements.specs.Plain.{plain_of};
ghost use Rattle.mg_transcript.specs.Courses.{Begun};
ghost use Rattle.mg_transcript.specs.Shorthand.{Gets, IsGot, value_of_key as value_of_key_of};
ghost use Rattle.mg_transcript.specs.Statements.{fault_seen};
ghost use Rattle.mg_courses.specs.Running.{refusal_answered};
ghost use Rattle.mg_value.specs.Names.{IsName};
ghost use Rattle.mg_shorthand.specs.Going.{GoesAt, Spares, SparesOn};
ghost use Rattle.mg_shorthand.specs.Replies.{at_end as at_end_of, fault_in as fault_in_of};

use crate::giving_up::{give_up, give_up_for};
use crate::putting::kv;
use crate::reading::{has_key_and_value, value_at};
use crate::settling::settle;
use mg_base::{Memory, TxNo};
use mg_courses::{Ending, Statements, Stepped, Tends, Work, run};
use mg_expr::{Expr, Sign};
use mg_model::{Refusal, Table};
use mg_rows::StatementFault;
use mg_script::Reply;
use mg_statements::Statement;
use mg_tending::{Collects, Keyed};
use mg_value::Name;
use std::alloc::Global;

/// Does what a get is for, in its transaction, which only reads, and ends that: it reads the value that the table KV
/// has at the key. Where KV is as a new database has it, no table is walked.
pub fn get<R: Tends + Keyed + Collects>(
    r: &mut R,
    alloc: Global,
    t: TxNo,
    size: u32,
    key: i64,
) -> Ending
where
    R::Run: Drop,
    requires size { R.meaning.is_size r.old size ≡ true }
    ensures goes { (o : Opening) (h : Entries) → (mode_of h t.0).read_only ≡ true
        → GoesAt R.meaning r.old r.new o h t result.over (λ after. Gets o key size h t after result.reply) }
    ensures spares { Spares R.meaning r.old r.new t (refusal_answered result.reply) result.over }
{
    match value_of_key(alloc, key) {
        Ok(statement) => read(r, alloc, t, size, key, statement),
        Err(_) => give_up_for(r, t, Refusal::Memory),
    }
}

// Tests the statement of a get, and runs it.
fn read<R: Tends + Keyed + Collects>(
    r: &mut R,
    alloc: Global,
    t: TxNo,
    size: u32,
    key: i64,
    statement: Statement,
) -> Ending
where
    R::Run: Drop,
    requires size { R.meaning.is_size r.old size ≡ true }
    requires its { plain_of statement ≡ value_of_key_of key }
    ensures goes { (o : Opening) (h : Entries) → (mode_of h t.0).read_only ≡ true
        → GoesAt R.meaning r.old r.new o h t result.over (λ after. Gets o key size h t after result.reply) }
    ensures spares { Spares R.meaning r.old r.new t (refusal_answered result.reply) result.over }
{
    match r.test(alloc, t, true, statement, size) {
        Ok(tested) => read_on(r, alloc, t, key, tested),
        Err(fault) => give_up(r, t, fault),
    }
}

// The statement was tested, so the table is there: it is asked for.
fn read_on<R: Tends + Keyed + Collects>(
    r: &mut R,
    alloc: Global,
    t: TxNo,
    key: i64,
    tested: R::Run,
) -> Ending
where
    R::Run: Drop,
    requires ready { R.runs.is_ready r.old t tested }
    ensures goes { (o : Opening) (h : Entries) (size : ℕ)
        → R.runs.is_at r.old o h t tested (Begun (value_of_key_of key) 0)
        → fault_seen o h t size (value_of_key_of key) ≡ None
        → GoesAt R.meaning r.old r.new o h t result.over (λ after. Gets o key size h t after result.reply) }
    ensures spares { SparesOn R.meaning r.old r.new t None (refusal_answered result.reply) result.over }
{
    match r.table(t, &kv()) {
        Ok(table) => read_in(r, alloc, t, &table, key, tested),
        Err(refusal) => give_up_for(r, t, refusal),
    }
}

// The table was given: where it is as a new database has it, its row is asked for by the key, and else the statement
// runs.
fn read_in<R: Tends + Keyed + Collects>(
    r: &mut R,
    alloc: Global,
    t: TxNo,
    table: &Table,
    key: i64,
    tested: R::Run,
) -> Ending
where
    R::Run: Drop,
    requires named { table.now.name ≡ kv_name }
    requires given { R.meaning.table r.old t.0 table.now.name ≡ Some table.now }
    requires ready { R.runs.is_ready r.old t tested }
    ensures goes { (o : Opening) (h : Entries) (size : ℕ)
        → shape_seen o h t.0 kv_name ≡ Some table.now.shape
        → R.runs.is_at r.old o h t tested (Begun (value_of_key_of key) 0)
        → fault_seen o h t size (value_of_key_of key) ≡ None
        → GoesAt R.meaning r.old r.new o h t result.over (λ after. Gets o key size h t after result.reply) }
    ensures spares { SparesOn R.meaning r.old r.new t None (refusal_answered result.reply) result.over }
{
    if has_key_and_value(&table.shape) {
        let reply = value_at(r, alloc, t, table, key);
        return end_reading(r, t, Ending { reply, over: false });
    }
    run_through(r, alloc, t, tested)
}

// Runs the tested statement of a get.
fn run_through<R: Tends>(r: &mut R, alloc: Global, t: TxNo, tested: R::Run) -> Ending
where
    R::Run: Drop,
    requires ready { R.runs.is_ready r.old t tested }
    ensures goes { (o : Opening) (h : Entries) (key : ℤ) (size : ℕ)
        → R.runs.is_at r.old o h t tested (Begun (value_of_key_of key) 0)
        → fault_seen o h t size (value_of_key_of key) ≡ None
        → GoesAt R.meaning r.old r.new o h t result.over (λ after. Gets o key size h t after result.reply) }
    ensures spares { SparesOn R.meaning r.old r.new t None (refusal_answered result.reply) result.over }
{
    let mut work = Work::Statement(tested);
    let stepped = run(r, alloc, t, &mut work);
    end_reading(r, t, at_end(stepped))
}

// What a reading that rests has come to.
fn at_end(stepped: Stepped) -> Ending
    ensures { result ≡ at_end_of stepped }
{
    match stepped {
        Stepped::More => Ending {
            reply: Reply::Held,
            over: false,
        },
        Stepped::Waits(on) => Ending {
            reply: Reply::No(StatementFault::Engine(Refusal::Waits { on })),
            over: false,
        },
        Stepped::Ended(ending) => ending,
    }
}

// A reading has answered: the transaction commits where it has found, and is rolled back where it was refused.
fn end_reading<R: Statements>(r: &mut R, t: TxNo, ending: Ending) -> Ending
    ensures goes { (o : Opening) (h : Entries) → ending.over ≡ false
        → GoesAt R.meaning r.old r.new o h t result.over (λ after. IsGot o h t ending.reply after result.reply) }
    ensures spares { (before : R) → Spares R.meaning before r.old t (refusal_answered ending.reply) ending.over
        → Spares R.meaning before r.new t (refusal_answered result.reply) result.over }
{
    if ending.over {
        return ending;
    }
    match fault_in(&ending.reply) {
        Some(fault) => give_up(r, t, fault),
        None => settle(r, t, ending.reply),
    }
}

// Why a reading was refused, if it was.
fn fault_in(reply: &Reply) -> Option<StatementFault>
    ensures { result ≡ fault_in_of reply.now }
{
    match reply {
        Reply::No(fault) => Some(*fault),
        Reply::Ok(_) | Reply::Tx(_) | Reply::Held | Reply::Bad => None,
    }
}

// SELECT V FROM KV WHERE K = key
fn value_of_key(alloc: Global, key: i64) -> Result<Statement, Memory>
    ensures { IfOk result (λ statement. plain_of statement ≡ value_of_key_of key) }
{
    let values = value(alloc)?;
    let filter = with_key(alloc, key)?;
    Ok(Statement::Select {
        table: kv(),
        values: Some(values),
        filter: Some(filter),
        sorted: None,
    })
}

// The column V alone.
fn value(alloc: Global) -> Result<Vec<Expr>, Memory>
    ensures { IfOk result (λ values. map tree_of values.items ≡ NameTree (codes "V") ∷ []) }
{
    let mut values = Vec::new(alloc);
    values.push(Expr::Name(name(b"V")))?;
    Ok(values)
}

// K = key
fn with_key(alloc: Global, key: i64) -> Result<Expr, Memory>
    ensures { IfOk result (λ filter. tree_of filter
        ≡ CompareTree (NameTree (codes "K")) Sign.Equal (IntegerTree key)) }
{
    let column = Box::new(alloc, Expr::Name(name(b"K")))?;
    let constant = Box::new(alloc, Expr::Integer(key))?;
    Ok(Expr::Compare(column, Sign::Equal, constant))
}

// A name of this spelling.
fn name(bytes: &[u8]) -> Name
    requires { IsName bytes.now }
    ensures { result ≡ bytes.now }
{
    Name::new(bytes).unwrap()
}
