//! Words.

ghost use Rattle.text_lexer.specs.Front.{word_front};
ghost use Rattle.text_lexer.specs.Lexeme.{is_word_byte};
ghost use Rattle.std.specs.List.{prefix_len};
ghost use Rattle.std.specs.Prelude.{IfErr, length, ◌≡◌, ◌≤◌};

use crate::front::Front;
use crate::lex_err::{Cause, Fault};
use crate::limits::MOST_NAME_BYTES;
use crate::token::TokenKind;

/// Whether the byte is a letter, a digit or `_`.
fn is_word_byte(byte: u8) -> bool
    ensures { result ≡ is_word_byte byte }
{
    byte.is_ascii_alphanumeric() || byte == b'_'
}

/// How many bytes at the front are letters, digits or `_`.
fn word_end(text: &[u8]) -> usize
    ensures value { result ≡ prefix_len is_word_byte text.now }
    ensures within { result ≤ length text.now }
{
    let mut end = 0;
    while end < text.len() && is_word_byte(text[end]) {
        end += 1;
    }
    end
}

/// The word at the front, which is of that kind by its first letter.
pub fn word(kind: TokenKind, text: &[u8]) -> Result<Front, Fault>
    ensures value { result ≡ word_front kind text.now }
    ensures fault { IfErr result (λ fault. fault.at ≤ length text.now) }
{
    let len = word_end(text);
    if len <= MOST_NAME_BYTES {
        Ok(Front { kind, len })
    } else {
        Err(Fault::new(Cause::TooManyNameBytes, 0))
    }
}
