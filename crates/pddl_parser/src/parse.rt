ghost use Rattle.std.specs.Prelude.{◌≡◌, ◌≤◌, List as Sequence, length, IfOk};
ghost use Rattle.pddl_lexer.specs.Lexing.{InOrder};
ghost use Rattle.pddl_forms.specs.Lexemes.{Lexeme};
ghost use Rattle.pddl_forms.specs.Inner.Reading.{Read, Reads};
ghost use Rattle.pddl_parser.specs.Inner.Choosing.{all_of};
ghost use Rattle.pddl_parser.specs.Inner.SectionReading as reading;
ghost use Rattle.pddl_parser.specs.Inner.Answering.{ordered_tokens_of, reply_by};
ghost use Rattle.pddl_parser.specs.Replies.{OrMemory, IsDomainReply, IsProblemReply};

use crate::domain_sections::domain_text;
use crate::problem_sections::problem_text;
use crate::refusal::ParseRefusal;
use crate::texts::{DomainText, ProblemText};
use flag_rules::{List, MAX_FILE_BYTES};
use pddl_forms::{Cursor, Stop};
use pddl_lexer::{Token, misplaced_parenthesis, tokens};
use std::alloc::Global;

/// A text that tokens have, up to their end.
trait WholeText: Drop {
    ghost reading: { Sequence Lexeme → Read Self };

    /// Reads the text, but not the end after it.
    fn read(alloc: Global, cursor: &mut Cursor<'_>) -> Result<Self, Stop>
        ensures { Reads (reading cursor.old) result cursor.new };
}

impl WholeText for DomainText {
    ghost reading = { reading.domain };

    fn read(alloc: Global, cursor: &mut Cursor<'_>) -> Result<Self, Stop> {
        domain_text(alloc, cursor)
    }
}

impl WholeText for ProblemText {
    ghost reading = { reading.problem };

    fn read(alloc: Global, cursor: &mut Cursor<'_>) -> Result<Self, Stop> {
        problem_text(alloc, cursor)
    }
}

/// The tokens of bytes, where each parenthesis is in its place.
fn ordered_tokens(alloc: Global, bytes: &[u8]) -> Result<List<Token>, ParseRefusal>
    requires { length bytes.now ≤ MAX_FILE_BYTES }
    ensures exact { OrMemory (λ reply. reply ≡ ordered_tokens_of bytes.now) result }
    ensures spans { IfOk result (λ tokens. InOrder 0 (length bytes.now) tokens) }
{
    let tokens = tokens(alloc, bytes)?;
    if let Some(misplaced) = misplaced_parenthesis(tokens.as_slice()) {
        return Err(misplaced.into());
    }
    Ok(tokens)
}

/// Reads a text, and the end after it.
#[tactic(auto, unfolding(pddl_forms::specs::Inner::Reading::and_then, crate::specs::Inner::Choosing::all_of))]
fn read_to_end<T: WholeText>(alloc: Global, cursor: &mut Cursor<'_>) -> Result<T, Stop>
    ensures { Reads (all_of T.reading cursor.old) result cursor.new }
{
    let text = T::read(alloc, cursor)?;
    cursor.end()?;
    Ok(text)
}

/// Reads the text of bytes, or tells their refusal.
fn parse<T: WholeText>(alloc: Global, bytes: &[u8]) -> Result<T, ParseRefusal>
    requires { length bytes.now ≤ MAX_FILE_BYTES }
    ensures { OrMemory (λ reply. reply ≡ reply_by T.reading bytes.now) result }
{
    let tokens = ordered_tokens(alloc, bytes)?;
    let mut cursor = Cursor::new(bytes, tokens.as_slice());
    match read_to_end(alloc, &mut cursor) {
        Ok(text) => Ok(text),
        Err(stop) => Err(ParseRefusal::at(stop, cursor.place(bytes.len() as u32))),
    }
}

/// Reads a domain of PDDL 1.2, `( define ( domain NAME ) section* )`, in letters of either case. Bytes
/// that have no such text have one refusal.
pub fn domain(alloc: Global, bytes: &[u8]) -> Result<DomainText, ParseRefusal>
    requires { length bytes.now ≤ MAX_FILE_BYTES }
    ensures reply { IsDomainReply bytes.now result }
{
    parse(alloc, bytes)
}

/// Reads a problem of PDDL 1.2, `( define ( problem NAME ) section* )`, in letters of either case.
/// Bytes that have no such text have one refusal.
pub fn problem(alloc: Global, bytes: &[u8]) -> Result<ProblemText, ParseRefusal>
    requires { length bytes.now ≤ MAX_FILE_BYTES }
    ensures reply { IsProblemReply bytes.now result }
{
    parse(alloc, bytes)
}
