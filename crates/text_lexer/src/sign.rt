//! Signs.

ghost use Rattle.text_lexer.specs.Front.{one_byte_sign, sign_front, two_byte_sign};
ghost use Rattle.std.specs.Prelude.{IfErr, length, ◌<◌, ◌≡◌, ◌≤◌};

use crate::front::Front;
use crate::lex_err::{Cause, Fault};
use crate::token::TokenKind;

/// The sign of two bytes, if they are one.
fn two_byte_sign(first: u8, second: u8) -> Option<TokenKind>
    ensures { result ≡ two_byte_sign first second }
{
    match (first, second) {
        (b':', b':') => Some(TokenKind::ColonColon),
        (b'-', b'>') => Some(TokenKind::Arrow),
        (b'=', b'=') => Some(TokenKind::EqEq),
        (b'!', b'=') => Some(TokenKind::NotEq),
        (b'<', b'=') => Some(TokenKind::LessEq),
        (b'>', b'=') => Some(TokenKind::GreaterEq),
        (b'&', b'&') => Some(TokenKind::AndAnd),
        (b'|', b'|') => Some(TokenKind::OrOr),
        _ => None,
    }
}

/// The sign of one byte, if it is one.
fn one_byte_sign(byte: u8) -> Option<TokenKind>
    ensures { result ≡ one_byte_sign byte }
{
    match byte {
        b'(' => Some(TokenKind::ParenOpen),
        b')' => Some(TokenKind::ParenClose),
        b'[' => Some(TokenKind::BracketOpen),
        b']' => Some(TokenKind::BracketClose),
        b'{' => Some(TokenKind::BraceOpen),
        b'}' => Some(TokenKind::BraceClose),
        b',' => Some(TokenKind::Comma),
        b':' => Some(TokenKind::Colon),
        b'.' => Some(TokenKind::Dot),
        b'-' => Some(TokenKind::Minus),
        b'+' => Some(TokenKind::Plus),
        b'<' => Some(TokenKind::Less),
        b'>' => Some(TokenKind::Greater),
        b'!' => Some(TokenKind::Not),
        b'|' => Some(TokenKind::Bar),
        b'@' => Some(TokenKind::At),
        _ => None,
    }
}

/// The sign at the front, of two bytes where it can be.
pub fn sign(text: &[u8]) -> Result<Front, Fault>
    requires { 0 < length text.now }
    ensures value { result ≡ sign_front text.now }
    ensures fault { IfErr result (λ fault. fault.at ≤ length text.now) }
{
    let second = if text.len() > 1 { text[1] } else { 0 };
    if let Some(kind) = two_byte_sign(text[0], second) {
        return Ok(Front { kind, len: 2 });
    }
    match one_byte_sign(text[0]) {
        Some(kind) => Ok(Front { kind, len: 1 }),
        None => Err(Fault::new(Cause::BadByte, 0)),
    }
}
