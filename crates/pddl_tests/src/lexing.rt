use crate::checks::check_reply;
use flag_rules::{List, MAX_FILE_BYTES};
use pddl_lexer::{Kind, LexRefusal, Misplaced, Token, misplaced_parenthesis, tokens};
use std::alloc::Global;
use std::test::Fail;

/// The tokens of a text that is not too long.
fn lexed(alloc: Global, text: &[u8]) -> Result<List<Token>, LexRefusal> {
    if text.len() > MAX_FILE_BYTES {
        return Err(LexRefusal::OutOfMemory);
    }
    tokens(alloc, text)
}

const ANY_TOKENS: &[u8] = b"(Is-on_2?X-9 - :ab ; % \xFF(\r\x0C)=-9-";

type Span = (Kind, u32, u32);

const SPANS: &[Span] = &[
    (Kind::LeftParen, 0, 1),
    (Kind::Name, 1, 8),
    (Kind::Variable, 8, 12),
    (Kind::Dash, 13, 14),
    (Kind::Keyword, 15, 18),
    (Kind::RightParen, 27, 28),
    (Kind::Equal, 28, 29),
    (Kind::Dash, 29, 30),
    (Kind::Name, 30, 32),
];

fn span_of(token: &Token) -> Span {
    (token.kind, token.from, token.to)
}

#[test]
fn tells_the_tokens_with_their_spans(rt: HostRuntime) -> Result<(), Fail> {
    let list = lexed(rt.alloc(), ANY_TOKENS)?;
    assert_eq!(rt; list.len(), SPANS.len());
    for (token, span) in list.as_slice().iter().zip(SPANS) {
        check_reply(&rt, ANY_TOKENS, &span_of(token), span);
    }
    Ok(())
}

/// The place of the byte that begins no token, if a text has one.
fn stray_byte(alloc: Global, text: &[u8]) -> Option<u32> {
    match lexed(alloc, text) {
        Err(LexRefusal::Byte(place)) => Some(place),
        _ => None,
    }
}

const WITH_A_STRAY_BYTE: &[&[u8]] = &[
    b"(define (domain d) % ?",
    b"(define (domain d) ? %",
    b"(define (domain d) :- %",
    b"(define (domain d) \x80",
    b"(define (domain d) _a",
];

#[test]
fn tells_the_first_byte_that_begins_no_token(rt: HostRuntime) {
    for text in WITH_A_STRAY_BYTE {
        check_reply(&rt, text, &stray_byte(rt.alloc(), text), &Some(19));
    }
}

/// The parenthesis of a text that is out of place.
fn misplaced(alloc: Global, text: &[u8]) -> Result<Option<Misplaced>, LexRefusal> {
    let list = lexed(alloc, text)?;
    Ok(misplaced_parenthesis(list.as_slice()))
}

const PARENTHESES: &[(&[u8], Option<Misplaced>)] = &[
    (b"", None),
    (b"(define (domain d)) ()", None),
    (b"(define (domain d)", Some(Misplaced::Unclosed(0))),
    (b"(define (domain d) (", Some(Misplaced::Unclosed(19))),
    (b"(define (domain d)))", Some(Misplaced::Unopened(19))),
    (b"(define (domain d))) (", Some(Misplaced::Unopened(19))),
    (&[b'('; 65], Some(Misplaced::TooDeep(64))),
    (&[b'('; 64], Some(Misplaced::Unclosed(63))),
    (b")(", Some(Misplaced::Unopened(0))),
];

#[test]
fn tells_the_parenthesis_that_is_out_of_place(rt: HostRuntime) -> Result<(), Fail> {
    for (text, expected) in PARENTHESES {
        check_reply(&rt, text, &misplaced(rt.alloc(), text)?, expected);
    }
    Ok(())
}
