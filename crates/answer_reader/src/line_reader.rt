ghost use Rattle.std.specs.Prelude.{◌≡◌, ◌↔◌, [], IsTrue, IfOk, IfErr, OnErr};
ghost use Rattle.answer_lines.specs.Cuts.{is_free_of};
ghost use Rattle.answer_reader.specs.Inner.Unread.{TakesLine};

use crate::AnswerRefusal;
use answer_lines::cut_before;
use std::marker::Model;

/// Reads a text line by line. Contracts see the bytes that are left, and the number of the line that they begin with.
#[derive(Drop)]
pub(crate) struct Reader<'a> {
    rest: &'a [u8],
    number: u64,
}

impl<'a> Model for Reader<'a> {
    ghost use Rattle.std.specs.Prelude.{◌+◌, ◌^◌, ◌≤◌, length};
    ghost use Rattle.answer_reader.specs.Inner.Unread.{Unread};

    ghost Value = { Unread };

    ghost view = { λ reader. record { rest = reader.rest.now; number = reader.number } };

    ghost invariant = { λ reader. reader.number + length reader.rest.now ≤ 2 ^ 63 };
}

impl<'a> Reader<'a> {
    /// A reader at the start of a text.
    pub(crate) fn new(bytes: &'a [u8]) -> Reader<'a>
        ensures rest { result.rest ≡ bytes.now }
        ensures number { result.number ≡ 1 }
    {
        Reader {
            rest: bytes,
            number: 1,
        }
    }

    /// The number of the line that comes next, from 1.
    pub(crate) fn number(&self) -> u64
        ensures { result ≡ self.now.number }
    {
        self.number
    }

    /// Whether no byte is left.
    pub(crate) fn is_at_end(&self) -> bool
        ensures { IsTrue result ↔ (self.now.rest ≡ []) }
    {
        self.rest.is_empty()
    }

    /// The next line, without its line feed. Where there is no line feed, the refusal has the line's number.
    pub(crate) fn next_line(&mut self) -> Result<&'a [u8], AnswerRefusal>
        ensures ok { IfOk result (λ text. TakesLine self.old self.new text.now) }
        ensures none { OnErr result (IsTrue (is_free_of 10 self.old.rest)) }
        ensures number { IfErr result (λ refusal. refusal ≡ AnswerRefusal.Line self.old.number) }
        ensures kept { OnErr result (self.new ≡ self.old) }
    {
        let (line, rest) = cut_before(self.rest, b'\n');
        let Some(rest) = rest.strip_prefix(b"\n".as_slice()) else {
            return Err(AnswerRefusal::Line(self.number));
        };
        self.rest = rest;
        self.number += 1;
        Ok(line)
    }
}
