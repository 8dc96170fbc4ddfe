ghost use Rattle.std.specs.Prelude.{◌≡◌, ◌+◌, ◌≤◌, length, IfOk};
ghost use Rattle.pddl_lexer.specs.Lexing.{is_blank, ends_line, name_len, comment_len, starts_name, piece_of, tokens_of, Gives, InOrder};
ghost use Rattle.pddl_lexer.specs.Inner.Spans.{IsWithin};
ghost use Rattle.flag_rules.specs.Name.{begins_name, is_name_byte};
ghost use Rattle.pddl_lexer.specs.declared.lexer.LexRefusal.TheVariants.{OutOfMemory as NoMemory};

use flag_rules::{List, MAX_FILE_BYTES, OutOfMemory};
use std::alloc::Global;
use thiserror::Error;

const FORM_FEED: u8 = 12;

/// The kinds of tokens.
#[derive(Clone, Copy, Debug, PartialEq, Eq)]
pub enum Kind {
    LeftParen,
    RightParen,
    Name,
    Variable,
    Keyword,
    Dash,
    Equal,
}

/// A token: its kind, and its bytes, from the place `from` and before the place `to`.
#[derive(Clone, Copy, Debug)]
pub struct Token {
    pub kind: Kind,
    pub from: u32,
    pub to: u32,
}

/// Why bytes have no tokens.
#[derive(Clone, Copy, Debug, Error)]
pub enum LexRefusal {
    /// The place of the first byte that begins no token.
    #[error("byte {0} begins no token")]
    Byte(u32),
    #[error("out of memory")]
    OutOfMemory,
}

impl From<OutOfMemory> for LexRefusal {
    ghost from_gives = { λ _ refusal. refusal ≡ NoMemory };

    fn from(_: OutOfMemory) -> Self {
        LexRefusal::OutOfMemory
    }
}

/// What stands at the front of some bytes, with its length: bytes that make no token, a token, or
/// a byte that begins none.
#[derive(Clone, Copy, Debug)]
pub enum Piece {
    Passed(usize),
    Spelled(Kind, usize),
    Stray,
}

fn begins_name(byte: u8) -> bool
    ensures { result ≡ begins_name byte }
{
    matches!(byte, b'a'..=b'z' | b'A'..=b'Z' | b'0'..=b'9')
}

fn is_name_byte(byte: u8) -> bool
    ensures { result ≡ is_name_byte byte }
{
    begins_name(byte) || byte == b'-' || byte == b'_'
}

fn is_blank(byte: u8) -> bool
    ensures { result ≡ is_blank byte }
{
    matches!(byte, b' ' | b'\t' | b'\n' | FORM_FEED | b'\r')
}

fn ends_line(byte: u8) -> bool
    ensures { result ≡ ends_line byte }
{
    matches!(byte, b'\n' | b'\r')
}

/// How many bytes at the front are bytes of a name.
fn name_length(bytes: &[u8]) -> usize
    ensures count { result ≡ name_len bytes.now }
    ensures within { result ≤ length bytes.now }
{
    bytes.iter().take_while(|byte| is_name_byte(**byte)).count()
}

/// How many bytes at the front stand before the end of the line.
fn comment_length(bytes: &[u8]) -> usize
    ensures count { result ≡ comment_len bytes.now }
    ensures within { result ≤ length bytes.now }
{
    bytes.iter().take_while(|byte| !ends_line(**byte)).count()
}

/// Whether a letter or a digit comes first.
fn starts_name(bytes: &[u8]) -> bool
    ensures { result ≡ starts_name bytes.now }
{
    match bytes {
        [first, ..] => begins_name(*first),
        [] => false,
    }
}

/// What stands at the front of a text, by its first byte and the bytes after it.
#[tactic(auto, unfolding(crate::specs::Lexing::piece_of))]
fn front_piece(first: u8, after: &[u8]) -> Piece
    ensures exact { result ≡ piece_of first after.now }
    ensures within { IsWithin result (length after.now + 1) }
{
    match first {
        _ if is_blank(first) => Piece::Passed(1),
        b';' => Piece::Passed(comment_length(after) + 1),
        b'(' => Piece::Spelled(Kind::LeftParen, 1),
        b')' => Piece::Spelled(Kind::RightParen, 1),
        b'=' => Piece::Spelled(Kind::Equal, 1),
        _ if begins_name(first) => Piece::Spelled(Kind::Name, name_length(after) + 1),
        b'?' if starts_name(after) => Piece::Spelled(Kind::Variable, name_length(after) + 1),
        b':' if starts_name(after) => Piece::Spelled(Kind::Keyword, name_length(after) + 1),
        b'-' => Piece::Spelled(Kind::Dash, 1),
        _ => Piece::Stray,
    }
}

/// The tokens of bytes, in order. `Byte` has the place of the first byte that begins no token.
pub fn tokens(alloc: Global, bytes: &[u8]) -> Result<List<Token>, LexRefusal>
    requires { length bytes.now ≤ MAX_FILE_BYTES }
    ensures exact { Gives result (tokens_of bytes.now) }
    ensures spans { IfOk result (λ tokens. InOrder 0 (length bytes.now) tokens) }
{
    let mut tokens = List::new(alloc);
    let mut at = 0;
    while at < bytes.len() {
        match front_piece(bytes[at], &bytes[at + 1..]) {
            Piece::Passed(count) => at += count,
            Piece::Spelled(kind, count) => {
                let to = at + count;
                tokens.push(Token {
                    kind,
                    from: at as u32,
                    to: to as u32,
                })?;
                at = to;
            }
            Piece::Stray => return Err(LexRefusal::Byte(at as u32)),
        }
    }
    Ok(tokens)
}
