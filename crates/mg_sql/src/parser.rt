//! A cursor over the tokens of a text, which looks one token ahead.

ghost use Rattle.std.specs.Prelude.{◌≡◌, ◌≤◌, ◌<◌, ◌∷◌, [], length};
ghost use Rattle.mg_sql.specs.Reading.{IsReady, Keeps, Expects, Decides, Takes_, TellsNumber, TellsSize, TellsText, TellsName, ahead, bounded};
ghost use Rattle.mg_sql.specs.declared.token.Kind.TheVariants as kinds;
ghost use Rattle.mg_sql.specs.Lexing.{Lexes, Stands};

use crate::scanning::{MOST_TEXT, scan};
use crate::token::Kind;
use crate::values::{name_of, number_of, size_of, text_of};
use mg_statements::SqlFault;
use mg_value::{Name, Txt};
use std::alloc::Global;

/// A text, and the token that stands next in it.
#[derive(Drop)]
pub(crate) struct Parser<'a> {
    pub(crate) alloc: Global,
    pub(crate) text: &'a [u8],
    /// Where the next token begins.
    pub(crate) at: usize,
    /// Where the next token ends.
    pub(crate) end: usize,
    pub(crate) kind: Kind,
}

impl<'a> Parser<'a> {
    /// Goes on behind the next token.
    pub(crate) fn advance(&mut self)
        requires ready { IsReady self.old }
        ensures keeps { Keeps self.old self.new }
        ensures token { Lexes self.old.text.now self.old.at (ahead self.old ∷ []) self.new.at }
        ensures behind { self.old.end ≤ self.new.at }
    {
        let (at, end, kind) = scan(self.text, self.end);
        self.at = at;
        self.end = end;
        self.kind = kind;
    }

    /// Where a fault at the next token is told.
    fn place(&self) -> u32
        ensures { result ≡ bounded self.now.at }
    {
        self.at.min(MOST_TEXT) as u32
    }

    /// The refusal of the next token.
    pub(crate) fn syntax(&self) -> SqlFault
        requires ready { IsReady self.now }
        ensures { result ≡ SqlFault.Syntax (bounded self.now.at) }
    {
        SqlFault::Syntax { at: self.place() }
    }

    /// The refusal of a level too many.
    pub(crate) fn too_deep(&self) -> SqlFault
        requires ready { IsReady self.now }
        ensures { result ≡ SqlFault.TooDeep (bounded self.now.at) }
    {
        SqlFault::TooDeep { at: self.place() }
    }

    /// Whether the next token is of this kind.
    pub(crate) fn is(&self, kind: Kind) -> bool
        ensures { Decides (self.now.kind ≡ kind) result }
    {
        self.kind == kind
    }

    /// Reads a token of this kind.
    pub(crate) fn expect(&mut self, kind: Kind) -> Result<(), SqlFault>
        requires ready { IsReady self.old }
        ensures keeps { Keeps self.old self.new }
        ensures told { Expects kind self.old self.new result }
    {
        if !self.is(kind) {
            return Err(self.syntax());
        }
        self.advance();
        Ok(())
    }

    /// Reads the next token where it is of this kind, and tells whether it is.
    pub(crate) fn takes(&mut self, kind: Kind) -> bool
        requires ready { IsReady self.old }
        ensures keeps { Keeps self.old self.new }
        ensures told { Takes_ kind self.old self.new result }
    {
        if !self.is(kind) {
            return false;
        }
        self.advance();
        true
    }

    /// Reads the next token, an integer.
    pub(crate) fn integer(&mut self) -> Result<i64, SqlFault>
        requires ready { IsReady self.old }
        requires integer { self.old.kind ≡ kinds.Integer }
        ensures keeps { Keeps self.old self.new }
        ensures told { TellsNumber self.old self.new result }
    {
        let Some(number) = number_of(&self.text[self.at..self.end]) else {
            return Err(SqlFault::NumberTooLarge { at: self.place() });
        };
        self.advance();
        Ok(number)
    }

    /// Reads the next token, an integer from 1 to 1000.
    pub(crate) fn size(&mut self) -> Result<u16, SqlFault>
        requires ready { IsReady self.old }
        requires integer { self.old.kind ≡ kinds.Integer }
        ensures keeps { Keeps self.old self.new }
        ensures told { TellsSize self.old self.new result }
    {
        let Some(size) = size_of(&self.text[self.at..self.end]) else {
            return Err(self.syntax());
        };
        self.advance();
        Ok(size)
    }

    /// Reads the next token, a text.
    pub(crate) fn text(&mut self) -> Result<Txt, SqlFault>
        requires ready { IsReady self.old }
        requires text { self.old.kind ≡ kinds.Text }
        ensures keeps { Keeps self.old self.new }
        ensures told { TellsText self.old self.new result }
    {
        let text = text_of(self.alloc, &self.text[self.at..self.end])?;
        self.advance();
        Ok(text)
    }

    /// Reads the next token, a name.
    pub(crate) fn name(&mut self) -> Result<Name, SqlFault>
        requires ready { IsReady self.old }
        requires name { self.old.kind ≡ kinds.Name }
        ensures keeps { Keeps self.old self.new }
        ensures told { TellsName self.old self.new result }
    {
        let Some(name) = name_of(&self.text[self.at..self.end]) else {
            return Err(SqlFault::NameTooLong { at: self.place() });
        };
        self.advance();
        Ok(name)
    }
}
