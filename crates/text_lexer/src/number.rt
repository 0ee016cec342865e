//! Numbers.

ghost use Rattle.text_lexer.specs.Front.{number_front};
ghost use Rattle.text_lexer.specs.Lexeme.{IsLexeme, has_needless_zero};
ghost use Rattle.text_lexer.specs.Token.{IsIn, lexeme_of};
ghost use Rattle.std.specs.Char.{is_ascii_digit};
ghost use Rattle.std.specs.List.{list_all, prefix_len};
ghost use Rattle.std.specs.Prelude.{IfErr, IfSome, IsNone, IsTrue, length, take, ◌<◌, ◌≡◌, ◌≤◌};
ghost use Rattle.std.specs.Str.Parse.{digits_value};

use crate::front::Front;
use crate::lex_err::{Cause, Fault};
use crate::limits::LARGEST_NUMBER;
use crate::token::{Token, TokenKind, bytes_of};

/// How many bytes at the front are digits.
fn digits_end(text: &[u8]) -> usize
    ensures value { result ≡ prefix_len is_ascii_digit text.now }
    ensures within { result ≤ length text.now }
    ensures digits { IsTrue (list_all is_ascii_digit (take result text.now)) }
{
    let mut end = 0;
    while end < text.len() && text[end].is_ascii_digit() {
        end += 1;
    }
    end
}

/// The number that the digits write, or None where it is above the largest.
fn value_of(digits: &[u8]) -> Option<u64>
    requires { IsTrue (list_all is_ascii_digit digits.now) }
    ensures some { IfSome result (λ value. (value ≡ digits_value 10 digits.now) ×
        (value ≤ LARGEST_NUMBER)) }
    ensures none { IsNone result → LARGEST_NUMBER < digits_value 10 digits.now }
{
    let largest = u128::from(LARGEST_NUMBER);
    let mut value = 0;
    for digit in digits {
        value = 10 * value + u128::from(*digit - b'0');
        if value > largest {
            return None;
        }
    }
    Some(value as u64)
}

/// Whether a 0 stands before further digits.
fn has_needless_zero(digits: &[u8]) -> bool
    ensures { result ≡ has_needless_zero digits.now }
{
    matches!(digits, [b'0', _, ..])
}

/// The number at the front.
pub fn number(text: &[u8]) -> Result<Front, Fault>
    ensures value { result ≡ number_front text.now }
    ensures fault { IfErr result (λ fault. fault.at ≤ length text.now) }
{
    let len = digits_end(text);
    let run = &text[..len];
    if !has_needless_zero(run) && value_of(run).is_some() {
        Ok(Front {
            kind: TokenKind::Number,
            len,
        })
    } else {
        Err(Fault::new(Cause::BadNumber, 0))
    }
}

/// The number that a token writes.
pub fn number_of(text: &[u8], token: Token) -> u64
    requires in_text { IsIn text.now token }
    requires number { token.kind ≡ TokenKind.Number }
    requires lexeme { IsLexeme (lexeme_of text.now token) }
    ensures value { result ≡ digits_value 10 (lexeme_of text.now token).bytes }
    ensures limit { result ≤ LARGEST_NUMBER }
{
    value_of(bytes_of(text, token)).unwrap()
}
