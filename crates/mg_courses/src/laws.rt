//! What follows of the meaning of statements.

ghost use Rattle.mg_courses.specs.BesideLaws.{WorksStayReady, WorksStayAt};

use crate::statements::Statements;

/// A statement stands where it stood, and can go on, whatever others do in the meantime.
pub fn works_stay_beside_others<R: Statements>()
    ensures ready { WorksStayReady R.meaning R.runs }
    ensures at { WorksStayAt R.meaning R.runs }
{}
