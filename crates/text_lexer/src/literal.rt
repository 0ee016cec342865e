//! Texts in quotes.

ghost use Rattle.text_lexer.specs.Front.{literal_front};
ghost use Rattle.text_lexer.specs.LiteralEnd.{IsCharacterAt, character_front, closed, ends_line};
ghost use Rattle.text_lexer.specs.LiteralEnd.{escape_len, is_hex_pair, literal_from};
ghost use Rattle.text_lexer.specs.Lexeme.{IsLexeme};
ghost use Rattle.text_lexer.specs.Literal.{IsLiteral, WritesByte, escaped, is_raw};
ghost use Rattle.text_lexer.specs.Token.{IsIn, lexeme_of};
ghost use Rattle.std.specs.Char.{digit_value, is_ascii_digit};
ghost use Rattle.std.specs.Int.{is_in_range};
ghost use Rattle.std.specs.List.{list_all, prefix_len};
ghost use Rattle.std.specs.Prelude.{IfErr, IfOk, IsTrue, List, Some, drop, is_some, length, take, ℕ, ◌+◌};
ghost use Rattle.std.specs.Prelude.{◌<◌, ◌^◌, ◌||◌, ◌≡◌, ◌≤◌};
ghost use Rattle.std.specs.Str.{IsUtf8};

use crate::front::Front;
use crate::lex_err::{Cause, Fault};
use crate::limits::MOST_TEXT_BYTES;
use crate::token::{Token, TokenKind, bytes_of};
use std::alloc::{AllocError, Global};

/// How many bytes are looked at together.
const BLOCK: usize = 16;

/// Whether the byte may follow a backslash with no more.
fn is_escape_letter(byte: u8) -> bool
    ensures { result ≡ is_some (escaped byte) }
{
    matches!(byte, b'"' | b'\\' | b'n' | b'r' | b't')
}

/// Whether two lower-case hexadecimal digits of a value below 128 stand at the front.
fn is_hex_pair(text: &[u8]) -> bool
    ensures { result ≡ is_hex_pair text.now }
{
    matches!(text, [b'0'..=b'7', b'0'..=b'9' | b'a'..=b'f', ..])
}

/// How many bytes after a backslash belong to it: 0 where it begins no escape.
fn escape_len(text: &[u8]) -> usize
    ensures value { result ≡ escape_len text.now }
    ensures within { result ≤ length text.now }
{
    match text {
        [letter, ..] if is_escape_letter(*letter) => 1,
        [b'x', digits @ ..] if is_hex_pair(digits) => 3,
        _ => 0,
    }
}

/// Whether the text or its line ends here.
fn ends_line(text: &[u8]) -> bool
    ensures { result ≡ ends_line text.now }
{
    matches!(text, [] | [b'\n', ..])
}

/// How many bytes the character at the front has, inside a literal, `at` bytes after its quote.
fn character_len(text: &[u8], at: usize) -> Result<usize, Fault>
    ensures value { result ≡ character_front at text.now }
    ensures within { IfOk result (λ len. (0 < len) × (len ≤ length text.now)) }
    ensures fault { IfErr result (λ fault. fault.at ≤ at) }
{
    let unfinished = Err(Fault::new(Cause::Unfinished, 0));
    let bad_byte = Err(Fault::new(Cause::BadByte, at));
    match text {
        _ if ends_line(text) => unfinished,
        [b'\\', after @ ..] if ends_line(after) => unfinished,
        [b'\\', after @ ..] => match escape_len(after) {
            0 => bad_byte,
            len => Ok(1 + len),
        },
        [byte, ..] if byte.is_ascii_control() => bad_byte,
        _ => Ok(1),
    }
}

/// Whether the byte stands for itself in a literal. Nothing branches here and where a block is
/// looked at, so that it can become vector code.
fn is_raw(byte: u8) -> bool
    ensures { result ≡ is_raw byte }
{
    !((byte < 32) | (byte == 127) | (byte == b'"') | (byte == b'\\'))
}

/// Whether each byte of a block stands for itself.
fn are_raw(bytes: &[u8]) -> bool
    ensures { result ≡ list_all is_raw bytes.now }
{
    let mut raw = true;
    for byte in bytes {
        raw = raw & is_raw(*byte);
    }
    raw
}

/// How many bytes at the front are in blocks that stand for themselves.
fn raw_blocks(text: &[u8]) -> usize
    ensures ahead { result + prefix_len is_raw (drop result text.now) ≡ prefix_len is_raw text.now }
    ensures within { result ≤ length text.now }
{
    let mut end = 0;
    while BLOCK <= text.len() - end && are_raw(&text[end..end + BLOCK]) {
        end += BLOCK;
    }
    end
}

/// How many bytes at the front stand for themselves.
fn raw_end(text: &[u8]) -> usize
    ensures value { result ≡ prefix_len is_raw text.now }
    ensures within { result ≤ length text.now }
{
    let mut end = raw_blocks(text);
    while end < text.len() && is_raw(text[end]) {
        end += 1;
    }
    end
}

/// The end of a literal that stands for so many bytes.
fn closed(end: usize, count: usize) -> Result<usize, Fault>
    ensures value { result ≡ closed end count }
    ensures fault { IfErr result (λ fault. fault.at ≡ 0) }
{
    if count <= MOST_TEXT_BYTES {
        Ok(end)
    } else {
        Err(Fault::new(Cause::TooManyTextBytes, 0))
    }
}

/// How many bytes the literal has whose quote stands before the text, the quote with them.
fn literal_end(text: &[u8]) -> Result<usize, Fault>
    requires { length text.now < 2 ^ 32 }
    ensures value { result ≡ literal_from 0 1 0 text.now }
    ensures fault { IfErr result (λ fault. fault.at ≤ 1 + length text.now) }
{
    let raw = raw_end(text);
    let mut rest = &text[raw..];
    let mut at = 1 + raw;
    let mut count = raw;
    while let [byte, ..] = rest {
        if *byte == b'"' {
            return closed(at + 1, count);
        }
        let len = character_len(rest, at)?;
        let raw = raw_end(&rest[len..]);
        rest = &rest[len + raw..];
        at += len + raw;
        count += 1 + raw;
    }
    Err(Fault::new(Cause::Unfinished, 0))
}

/// The literal at the front, which begins with a quote.
pub fn literal(text: &[u8]) -> Result<Front, Fault>
    requires some { 0 < length text.now }
    requires small { length text.now < 2 ^ 32 }
    ensures value { result ≡ literal_front text.now }
    ensures fault { IfErr result (λ fault. fault.at ≤ length text.now) }
{
    let len = literal_end(&text[1..])?;
    Ok(Front {
        kind: TokenKind::Text,
        len,
    })
}

/// The byte that a backslash and this letter stand for.
fn unescaped(letter: u8) -> u8
    requires { IsTrue (is_some (escaped letter)) }
    ensures { Some result ≡ escaped letter }
{
    match letter {
        b'n' => b'\n',
        b'r' => b'\r',
        b't' => b'\t',
        _ => letter,
    }
}

/// The value of a lower-case hexadecimal digit.
fn hex_value(digit: u8) -> u8
    requires { IsTrue (is_ascii_digit digit || is_in_range 97 102 digit) }
    ensures value { result ≡ digit_value digit }
    ensures small { result < 16 }
{
    match digit {
        b'0'..=b'9' => digit - b'0',
        _ => digit - b'a' + 10,
    }
}

/// The byte that the character at the front stands for, and how many bytes the character has.
fn character(text: &[u8]) -> (u8, usize)
    requires { IsCharacterAt text.now }
    ensures writes { WritesByte (take result.1 text.now) result.0 }
    ensures within { (0 < result.1) × (result.1 ≤ length text.now) }
{
    let first = text[0];
    if first != b'\\' {
        return (first, 1);
    }
    match text[1] {
        b'x' => (16 * hex_value(text[2]) + hex_value(text[3]), 4),
        letter => (unescaped(letter), 2),
    }
}

/// The bytes that the characters between the quotes of a literal stand for.
fn unescape(alloc: Global, literal: &[u8]) -> Result<Vec<u8>, AllocError>
    requires { (value : List ℕ) × IsLiteral literal.now value }
    ensures { IfOk result (λ value. IsLiteral literal.now value.items) }
{
    let mut value = Vec::new(alloc);
    let mut rest = &literal[1..literal.len() - 1];
    while !rest.is_empty() {
        let (byte, len) = character(rest);
        value.push(byte)?;
        rest = &rest[len..];
    }
    Ok(value)
}

/// The bytes that a literal stands for.
pub fn text_of(alloc: Global, text: &[u8], token: Token) -> Result<Vec<u8>, AllocError>
    requires in_text { IsIn text.now token }
    requires literal { token.kind ≡ TokenKind.Text }
    requires lexeme { IsLexeme (lexeme_of text.now token) }
    ensures value { IfOk result (λ value. IsLiteral (lexeme_of text.now token).bytes value.items) }
    ensures limit { IfOk result (λ value. length value.items ≤ MOST_TEXT_BYTES) }
    ensures utf8 { IsUtf8 text.now → IfOk result (λ value. IsUtf8 value.items) }
{
    unescape(alloc, bytes_of(text, token))
}
