ghost use Rattle.std.specs.Prelude.{◌≡◌};
ghost use Rattle.pddl_lexer.specs.Parentheses.{misplaced_in};

use crate::lexer::{Kind, Token};
use arrayvec::ArrayVec;
use thiserror::Error;

/// How deep lists may be nested.
pub const MAX_NESTING: usize = 64;

/// A parenthesis that is out of place, with the place of its byte.
#[derive(Clone, Copy, Debug, PartialEq, Eq, Error)]
pub enum Misplaced {
    /// A right parenthesis without a partner.
    #[error("the parenthesis at {0} closes nothing")]
    Unopened(u32),
    /// A left parenthesis within too many others.
    #[error("the parenthesis at {0} is nested too deep")]
    TooDeep(u32),
    /// The last left parenthesis that has no partner.
    #[error("the parenthesis at {0} is not closed")]
    Unclosed(u32),
}

/// The parenthesis that is out of place, if there is one: the first that is unopened or too deep, or
/// else the last that is unclosed. It takes no memory.
#[tactic(auto, unfolding(crate::specs::Parentheses::misplaced))]
pub fn misplaced_parenthesis(tokens: &[Token]) -> Option<Misplaced>
    ensures { result ≡ misplaced_in tokens.now }
{
    let mut open = ArrayVec::<u32, MAX_NESTING>::new();
    for token in tokens {
        match token.kind {
            Kind::LeftParen if open.is_full() => return Some(Misplaced::TooDeep(token.from)),
            Kind::LeftParen => open.push(token.from),
            Kind::RightParen if open.pop().is_none() => {
                return Some(Misplaced::Unopened(token.from));
            }
            _ => {}
        }
    }
    open.last().map(|at| Misplaced::Unclosed(*at))
}
