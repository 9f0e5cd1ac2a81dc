//! A text that grows piece by piece.

ghost use Rattle.std.specs.Prelude.{◌≡◌, ◌++◌, decimal, codes, true, [], OnOk};
ghost use Rattle.mg_value.specs.Values.{KeepsFront, doubled, printed, quoted};
ghost use Rattle.std.specs.List.{flat_map};
ghost use Rattle.mg_script.specs.Texts.{refusal_text};
ghost use Rattle.mg_script.specs.Transcript.{joined};
ghost use Rattle.mg_trace.specs.Text.{row_text};
ghost use Rattle.mg_trace.specs.Putting.{EndsLine, Puts, Stops};

use mg_base::Memory;
use mg_model::Refusal;
use mg_script::{put_number, put_refusal, put_values, put_word};
use mg_value::{Name, Row, Txt, Value, print};
use std::alloc::Global;

/// The text of a history, a line for each event.
#[derive(Debug, Drop)]
pub struct Trace {
    pub text: Vec<u8>,
    /// Memory was never short. Where it was, nothing is put any more.
    pub whole: bool,
}

impl Trace {
    /// The trace of a history without an event. It takes no memory.
    pub fn new(alloc: Global) -> Trace
        ensures empty { result.text.items ≡ [] }
        ensures whole { result.whole ≡ true }
    {
        Trace {
            text: Vec::new(alloc),
            whole: true,
        }
    }

    /// Puts nothing any more: the text is that of a beginning of the history from here on.
    pub fn stop(&mut self)
        ensures { Stops self.old self.new }
    {
        self.whole = false;
    }

    /// Puts a word.
    pub(crate) fn word(&mut self, word: &str)
        ensures { Puts self.old self.new word.now }
    {
        if self.whole {
            self.whole = put_word(&mut self.text, word).is_ok();
        }
    }

    /// Puts a number.
    pub(crate) fn number(&mut self, number: u64)
        ensures { Puts self.old self.new (decimal number) }
    {
        if self.whole {
            self.whole = put_number(&mut self.text, number).is_ok();
        }
    }

    /// Puts a value.
    pub(crate) fn value(&mut self, value: &Value)
        ensures { Puts self.old self.new (printed value.now) }
    {
        if self.whole {
            self.whole = print(value, &mut self.text).is_ok();
        }
    }

    /// Puts a name.
    pub(crate) fn name(&mut self, name: &Name)
        ensures { Puts self.old self.new name.now }
    {
        if self.whole {
            self.whole = put_bytes(&mut self.text, name.as_slice()).is_ok();
        }
    }

    /// Puts a text in quotes.
    pub(crate) fn quoted(&mut self, text: &Txt)
        ensures { Puts self.old self.new (quoted text.now) }
    {
        self.word("'");
        self.doubled(text.as_slice());
        self.word("'");
    }

    /// Puts the bytes of a text with each quote doubled.
    fn doubled(&mut self, text: &[u8])
        ensures { Puts self.old self.new (flat_map doubled text.now) }
    {
        for byte in text {
            self.byte(*byte);
        }
    }

    /// Puts a byte of a text, twice where it is a quote.
    fn byte(&mut self, byte: u8)
        ensures { Puts self.old self.new (doubled byte) }
    {
        if byte == b'\'' {
            self.word("''");
        } else if self.whole {
            self.whole = self.text.push(byte).is_ok();
        }
    }

    /// Puts the text of a refusal.
    pub(crate) fn refusal(&mut self, refusal: Refusal)
        ensures { Puts self.old self.new (refusal_text refusal) }
    {
        if self.whole {
            self.whole = put_refusal(&mut self.text, refusal).is_ok();
        }
    }

    /// Puts the values of a row.
    pub(crate) fn values(&mut self, values: &[Value])
        ensures { Puts self.old self.new (joined values.now) }
    {
        if self.whole {
            self.whole = put_values(values, &mut self.text).is_ok();
        }
    }

    /// Puts a row, in parentheses.
    pub(crate) fn row(&mut self, row: &Row)
        ensures { Puts self.old self.new (row_text row.now) }
    {
        self.word("(");
        self.values(row.as_slice());
        self.word(")");
    }

    /// Ends the line that has begun there, or takes it away where it is not whole.
    pub(crate) fn end_line(&mut self, begun: usize)
        ensures { EndsLine self.old self.new begun (codes "\n") }
    {
        self.word("\n");
        if !self.whole {
            self.text.truncate(begun);
        }
    }
}

// Appends bytes. Where memory runs out nothing is appended.
fn put_bytes(out: &mut Vec<u8>, bytes: &[u8]) -> Result<(), Memory>
    ensures ok { OnOk result (out.new.items ≡ out.old.items ++ bytes.now) }
    ensures front { KeepsFront out.old.items out.new.items }
{
    out.extend_from_slice(bytes)?;
    Ok(())
}
