//! The token at the front of a text.

ghost use Rattle.text_lexer.specs.Front.{front};
ghost use Rattle.std.specs.Prelude.{IfErr, length, ◌<◌, ◌^◌, ◌≡◌, ◌≤◌};

use crate::lex_err::Fault;
use crate::literal::literal;
use crate::number::number;
use crate::sign::sign;
use crate::token::TokenKind;
use crate::word::word;

/// A token at the front of a text: its kind, and how many bytes it has.
#[derive(Clone, Copy, Debug, PartialEq, Eq)]
pub struct Front {
    pub kind: TokenKind,
    pub len: usize,
}

/// The token at the front, or what stands in its way, and where.
#[tactic(auto, unfolding(crate::specs::Front::front))]
pub fn front_token(text: &[u8]) -> Result<Front, Fault>
    requires some { 0 < length text.now }
    requires small { length text.now < 2 ^ 32 }
    ensures value { result ≡ front text.now }
    ensures fault { IfErr result (λ fault. fault.at ≤ length text.now) }
{
    match text[0] {
        b'A'..=b'Z' => word(TokenKind::Upper, text),
        b'a'..=b'z' => word(TokenKind::Lower, text),
        b'0'..=b'9' => number(text),
        b'"' => literal(text),
        _ => sign(text),
    }
}
