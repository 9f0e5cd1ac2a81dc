//! Answers are put, and end their lines.

ghost use Rattle.std.specs.Prelude.{◌≡◌, ◌++◌, codes, decimal};
ghost use Rattle.std.specs.List.{flat_map};
ghost use Rattle.mg_model.specs.declared.answer.Answer.TheVariants as answers;
ghost use Rattle.mg_trace.specs.Putting.{EndsLine, Puts};
ghost use Rattle.mg_trace.specs.Text.{answer_text, end_text, spaced_row};

use crate::trace::Trace;
use mg_base::TxNo;
use mg_model::Answer;
use mg_value::Row;

/// Puts an answer behind its event, and ends the line that has begun there.
pub(crate) fn end_answer(trace: &mut Trace, begun: usize, answer: &Answer)
    ensures { EndsLine trace.old trace.new begun (end_text answer.now) }
{
    trace.word(" -> ");
    put_answer(trace, answer);
    trace.end_line(begun);
}

/// Puts rows as the answer to an event, and ends the line that has begun there.
pub(crate) fn end_rows(trace: &mut Trace, begun: usize, rows: &[Row])
    ensures { EndsLine trace.old trace.new begun (end_text (answers.Rows rows.now)) }
{
    trace.word(" -> ");
    put_rows(trace, rows);
    trace.end_line(begun);
}

// Puts an answer.
fn put_answer(trace: &mut Trace, answer: &Answer)
    ensures { Puts trace.old trace.new (answer_text answer.now) }
{
    match answer {
        Answer::Fine => trace.word("FINE"),
        Answer::Tx(t) => put_number(trace, "TX ", *t),
        Answer::Rows(rows) => put_rows(trace, rows.as_slice()),
        Answer::No(refusal) => trace.refusal(*refusal),
    }
}

// Puts a word and a transaction.
fn put_number(trace: &mut Trace, word: &str, t: TxNo)
    ensures { Puts trace.old trace.new (word.now ++ decimal t.0) }
{
    trace.word(word);
    trace.number(u64::from(t.0));
}

// Puts rows, one after another.
fn put_rows(trace: &mut Trace, rows: &[Row])
    ensures { Puts trace.old trace.new (codes "ROWS" ++ flat_map spaced_row rows.now) }
{
    trace.word("ROWS");
    for row in rows {
        put_row(trace, row);
    }
}

// Puts a row behind a blank.
fn put_row(trace: &mut Trace, row: &Row)
    ensures { Puts trace.old trace.new (spaced_row row.now) }
{
    trace.word(" ");
    trace.row(row);
}
