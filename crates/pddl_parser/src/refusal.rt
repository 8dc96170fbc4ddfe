ghost use Rattle.std.specs.Prelude.{◌≡◌};
ghost use Rattle.pddl_parser.specs.Inner.Answering.{refusal_of_lexer, refusal_of_misplaced, refusal_of_stop};

use pddl_forms::{Stop, Why};
use pddl_lexer::{LexRefusal, Misplaced};
use thiserror::Error;

/// Why bytes have no text, with the place where, in bytes from 0.
#[derive(Clone, Copy, Debug, PartialEq, Eq, Error)]
pub enum ParseRefusal {
    /// A byte that begins no token.
    #[error("byte {0} begins no token")]
    Byte(u32),
    /// The last left parenthesis that has no partner.
    #[error("the parenthesis at {0} is not closed")]
    Unclosed(u32),
    /// A right parenthesis without a partner.
    #[error("the parenthesis at {0} closes nothing")]
    Unopened(u32),
    /// A left parenthesis within too many others.
    #[error("the parenthesis at {0} is nested too deep")]
    TooDeep(u32),
    /// The first token such that the tokens up to it begin no text of the grammar, or the end of the text where all tokens
    /// begin a text and are none.
    #[error("the token at {0} does not fit there")]
    Shape(u32),
    /// Such a token that stands for what this reader leaves out: another keyword, a reserved name or `=` in the place of a
    /// predicate's name, or `either` in the place of a type.
    #[error("the text at {0} is not supported")]
    Unsupported(u32),
    /// There was not enough memory.
    #[error("out of memory")]
    OutOfMemory,
}

impl ParseRefusal {
    /// The refusal of a text whose reading stopped at a place.
    pub(crate) fn at(stop: Stop, place: u32) -> ParseRefusal
        ensures { result ≡ refusal_of_stop stop place }
    {
        match stop {
            Stop::Refused(Why::Shape) => ParseRefusal::Shape(place),
            Stop::Refused(Why::Unsupported) => ParseRefusal::Unsupported(place),
            Stop::OutOfMemory => ParseRefusal::OutOfMemory,
        }
    }
}

impl From<LexRefusal> for ParseRefusal {
    ghost from_gives = { λ refusal made. made ≡ refusal_of_lexer refusal };

    fn from(refusal: LexRefusal) -> Self {
        match refusal {
            LexRefusal::Byte(place) => ParseRefusal::Byte(place),
            LexRefusal::OutOfMemory => ParseRefusal::OutOfMemory,
        }
    }
}

impl From<Misplaced> for ParseRefusal {
    ghost from_gives = { λ misplaced made. made ≡ refusal_of_misplaced misplaced };

    fn from(misplaced: Misplaced) -> Self {
        match misplaced {
            Misplaced::Unopened(place) => ParseRefusal::Unopened(place),
            Misplaced::TooDeep(place) => ParseRefusal::TooDeep(place),
            Misplaced::Unclosed(place) => ParseRefusal::Unclosed(place),
        }
    }
}
