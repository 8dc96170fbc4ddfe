ghost use Rattle.std.specs.Prelude.{◌≡◌, ◌<◌, true, length, drop, IfOk};
ghost use Rattle.pddl_forms.specs.Lexemes.{lexemes, lower, place_of};
ghost use Rattle.pddl_lexer.specs.Lexing.{InOrder};
ghost use Rattle.pddl_forms.specs.Inner.Reading.{Reads, is_word, comes, comes_as, comes_reserved, mark, literal, any_word, start, end, head};
ghost use Rattle.pddl_forms.specs.Inner.GroupReading.{IsWhyNoType};

use crate::stop::{Stop, Why};
use crate::texts::Word;
use flag_rules::Text;
use pddl_lexer::{Kind, Token};
use std::alloc::Global;
use std::marker::Model;

/// How a part of a conjunction starts: as `( )`, as `( and`, or as another item, at its left
/// parenthesis.
#[derive(Clone, Copy, Debug)]
pub enum Start {
    Nothing,
    And,
    Other,
}

/// The tokens of a text that are still to be read. Contracts see the lexemes.
#[derive(Drop)]
pub struct Cursor<'a> {
    bytes: &'a [u8],
    tokens: &'a [Token],
}

impl<'a> Model for Cursor<'a> {
    ghost use Rattle.std.specs.Prelude.{List};
    ghost use Rattle.pddl_lexer.specs.Inner.Spans.{AreWithin};
    ghost use Rattle.pddl_forms.specs.Lexemes.{Lexeme, lexemes};

    ghost Value = { List Lexeme };

    ghost view = { λ cursor. lexemes cursor.bytes.now cursor.tokens.now };

    ghost invariant = { λ cursor. AreWithin cursor.bytes.now cursor.tokens.now };
}

impl<'a> Cursor<'a> {
    /// All the tokens of a text.
    pub fn new(bytes: &'a [u8], tokens: &'a [Token]) -> Cursor<'a>
        requires { InOrder 0 (length bytes.now) tokens.now }
        ensures { result ≡ lexemes bytes.now tokens.now }
    {
        Cursor { bytes, tokens }
    }

    /// Whether a token of this kind comes first.
    pub fn is_at(&self, kind: Kind) -> bool
        ensures { result ≡ comes kind self.now }
    {
        match self.tokens {
            [first, ..] => first.kind == kind,
            [] => false,
        }
    }

    /// Whether this word comes first, in letters of either case.
    pub fn is_at_word(&self, kind: Kind, text: &[u8]) -> bool
        requires word { is_word kind ≡ true }
        requires lower { lower text.now ≡ text.now }
        ensures { result ≡ comes_as kind text.now self.now }
    {
        match self.tokens {
            [first, ..] => {
                first.kind == kind
                    && self.bytes[first.from as usize..first.to as usize].eq_ignore_ascii_case(text)
            }
            [] => false,
        }
    }

    /// Passes the first token, if there is one.
    pub fn pass(&mut self)
        ensures left { self.new ≡ drop 1 self.old }
        ensures few { length self.new < usize.MAX }
    {
        let count = self.tokens.len().min(1);
        self.tokens = &self.tokens[count..];
    }

    /// Whether what may not head an atom comes first: a reserved name or the equality sign.
    fn is_at_reserved(&self) -> bool
        ensures { result ≡ comes_reserved self.now }
    {
        self.is_at(Kind::Equal)
            || self.is_at_word(Kind::Name, b"and")
            || self.is_at_word(Kind::Name, b"not")
            || self.is_at_word(Kind::Name, b"or")
            || self.is_at_word(Kind::Name, b"imply")
            || self.is_at_word(Kind::Name, b"forall")
            || self.is_at_word(Kind::Name, b"exists")
            || self.is_at_word(Kind::Name, b"when")
            || self.is_at_word(Kind::Name, b"either")
            || self.is_at_word(Kind::Name, b"increase")
            || self.is_at_word(Kind::Name, b"decrease")
            || self.is_at_word(Kind::Name, b"assign")
            || self.is_at_word(Kind::Name, b"scale-up")
            || self.is_at_word(Kind::Name, b"scale-down")
    }

    /// Reads a token of a kind.
    pub fn mark(&mut self, kind: Kind) -> Result<(), Stop>
        ensures reads { Reads (mark kind self.old) result self.new }
        ensures few { IfOk result (λ _. length self.new < usize.MAX) }
    {
        if !self.is_at(kind) {
            return Err(Stop::Refused(Why::Shape));
        }
        self.pass();
        Ok(())
    }

    /// Reads a given word, which is in lower case.
    pub fn literal(&mut self, kind: Kind, text: &[u8]) -> Result<(), Stop>
        requires word { is_word kind ≡ true }
        requires lower { lower text.now ≡ text.now }
        ensures { Reads (literal kind text.now self.old) result self.new }
    {
        if !self.is_at_word(kind, text) {
            return Err(Stop::Refused(Why::Shape));
        }
        self.pass();
        Ok(())
    }

    /// Reads any word of a kind.
    pub fn any_word(&mut self, alloc: Global, kind: Kind) -> Result<Word, Stop>
        requires { is_word kind ≡ true }
        ensures { Reads (any_word kind self.old) result self.new }
    {
        match self.tokens {
            [first, rest @ ..] if first.kind == kind => {
                let bytes = &self.bytes[first.from as usize..first.to as usize];
                let text = Text::from_vec(bytes.to_ascii_lowercase(alloc)?);
                self.tokens = rest;
                Ok(Word {
                    text,
                    at: first.from,
                })
            }
            _ => Err(Stop::Refused(Why::Shape)),
        }
    }

    /// Where the first token stands, or the end of the text where there is none.
    pub fn place(&self, end: u32) -> u32
        ensures { result ≡ place_of end self.now }
    {
        match self.tokens {
            [first, ..] => first.from,
            [] => end,
        }
    }

    /// Why what comes first is no type, where one is looked for after a dash and a left parenthesis.
    pub fn why_no_type(&self) -> Why
        ensures { IsWhyNoType self.now result }
    {
        // The tokens themselves are in sight here: none is a gap.
        let _ = &self.tokens;
        if self.is_at_word(Kind::Name, b"either") {
            Why::Unsupported
        } else {
            Why::Shape
        }
    }

    /// Reads the end of the text.
    pub fn end(&self) -> Result<(), Stop>
        ensures { Reads (end self.now) result self.now }
    {
        if !self.tokens.is_empty() {
            return Err(Stop::Refused(Why::Shape));
        }
        Ok(())
    }

    /// Reads how a part of a conjunction starts, with its left parenthesis.
    #[tactic(auto, unfolding(crate::specs::Inner::Reading::and_then, crate::specs::Inner::Reading::start))]
    pub fn start(&mut self) -> Result<Start, Stop>
        ensures reads { Reads (start self.old) result self.new }
        ensures few { IfOk result (λ _. length self.new < usize.MAX) }
    {
        self.mark(Kind::LeftParen)?;
        if self.is_at(Kind::RightParen) {
            self.pass();
            return Ok(Start::Nothing);
        }
        if self.is_at_word(Kind::Name, b"and") {
            self.pass();
            return Ok(Start::And);
        }
        Ok(Start::Other)
    }

    /// Reads the head of an atom or of a predicate.
    pub fn head(&mut self, alloc: Global) -> Result<Word, Stop>
        ensures { Reads (head self.old) result self.new }
    {
        if self.is_at_reserved() {
            return Err(Stop::Refused(Why::Unsupported));
        }
        self.any_word(alloc, Kind::Name)
    }
}
