//! Steps of statements as steps of a transcript. Each function does nothing: its contract is the law.

ghost use Rattle.mg_exec_course_laws.specs.Courses.{ChangesTell, CreatesTell, InsertsTell, ReadsTell, RetriesTell, ReturnsTell, SavesTell, StepsTell, TestsTell};

use mg_records::Records;

/// A savepoint is set, or gone back to.
pub fn points_tell<R: Records>()
    ensures saves { SavesTell R.meaning }
    ensures returns { ReturnsTell R.meaning }
{}

/// A write behind the mark comes.
pub fn changes_tell<R: Records>()
    ensures { ChangesTell R.meaning }
{}

/// The rows of a new table come, behind the mark or after a wait.
pub fn tables_tell<R: Records>()
    ensures creates { CreatesTell R.meaning }
    ensures retries { RetriesTell R.meaning }
{}

/// The first step of an INSERT.
pub fn inserts_tell<R: Records>()
    ensures { InsertsTell R.meaning }
{}

/// A step of a reading.
pub fn reads_tell<R: Records>()
    ensures { ReadsTell R.meaning }
{}

/// A step of any statement.
pub fn steps_tell<R: Records>()
    ensures { StepsTell R.meaning }
{}

/// The tests tell the first fault, or where the statement begins.
pub fn tests_tell<R: Records>()
    ensures { TestsTell R.meaning }
{}
