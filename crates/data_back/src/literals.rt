//! Texts in quotes.

ghost use Rattle.std.specs.Prelude.{◌≡◌, ◌<◌, [], ◌∷◌, ◌++◌, length, IfSome, OnOk};
ghost use Rattle.std.specs.Prelude.{MatchOption};
ghost use Rattle.text_lexer.specs.Literal.{escaped};
ghost use Rattle.data_back.specs.Reading as spec;
ghost use Rattle.data_back.specs.Reading.{Reads, ReadsAs, character_at, escaped_at, hex_at};
ghost use Rattle.data_back.specs.Reading.{text_at, text_from};

use crate::scanner::Scanner;
use crate::stop::Stop;
use std::alloc::{AllocError, Global};

/// The value of a lower-case hexadecimal digit.
fn hex_digit(digit: u8) -> Option<u8>
    ensures value { result ≡ spec.hex_digit digit }
    ensures small { IfSome result (λ value. value < 16) }
{
    match digit {
        b'0'..=b'9' => Some(digit - b'0'),
        b'a'..=b'f' => Some(digit - b'a' + 10),
        _ => None,
    }
}

/// What the letter stands for behind a backslash.
fn letter(letter: u8) -> Option<u8>
    ensures { result ≡ escaped letter }
{
    match letter {
        b'"' | b'\\' => Some(letter),
        b'n' => Some(b'\n'),
        b'r' => Some(b'\r'),
        b't' => Some(b'\t'),
        _ => None,
    }
}

/// Adds a byte at the end.
fn push(bytes: &mut Vec<u8>, byte: u8) -> Result<(), AllocError>
    ensures { OnOk result (bytes.new.items ≡ bytes.old.items ++ byte ∷ []) }
{
    bytes.push(byte)?;
    Ok(())
}

impl<'a> Scanner<'a> {
    /// Passes over the next byte, or None where none is left.
    fn byte(&mut self) -> Option<u8>
        ensures { MatchOption result ((self.old ≡ []) × (self.new ≡ []))
            (λ byte. self.old ≡ byte ∷ self.new) }
    {
        let (byte, rest) = self.rest.split_first()?;
        self.rest = rest;
        Some(*byte)
    }

    /// The byte of which two hexadecimal digits are at the front.
    fn hex(&mut self) -> Result<u8, Stop>
        ensures { Reads (hex_at self.old) result self.new }
    {
        let high = self.byte().ok_or(Stop::Unlike)?;
        let low = self.byte().ok_or(Stop::Unlike)?;
        let high = hex_digit(high).ok_or(Stop::Unlike)?;
        let low = hex_digit(low).ok_or(Stop::Unlike)?;
        Ok(16 * high + low)
    }

    /// The byte that is written at the front, behind a backslash.
    fn escaped(&mut self) -> Result<u8, Stop>
        ensures { Reads (escaped_at self.old) result self.new }
    {
        match self.byte().ok_or(Stop::Unlike)? {
            b'x' => self.hex(),
            byte => letter(byte).ok_or(Stop::Unlike),
        }
    }

    /// The byte that is written at the front, between quotes.
    fn character(&mut self) -> Result<u8, Stop>
        ensures { Reads (character_at self.old) result self.new }
    {
        match self.byte().ok_or(Stop::Unlike)? {
            b'\\' => self.escaped(),
            byte => Ok(byte),
        }
    }

    /// The bytes before the closing quote.
    fn quoted(&mut self, alloc: Global) -> Result<Vec<u8>, Stop>
        ensures { ReadsAs (λ bytes. bytes.items)
            (text_from [] (length self.old) self.old) result self.new }
    {
        let mut bytes = Vec::new(alloc);
        for _turn in 0..self.rest.len() {
            if self.takes(b"\"") {
                return Ok(bytes);
            }
            let byte = self.character()?;
            push(&mut bytes, byte)?;
        }
        Err(Stop::Unlike)
    }

    /// The bytes of the text in quotes at the front.
    pub fn text(&mut self, alloc: Global) -> Result<Vec<u8>, Stop>
        ensures { ReadsAs (λ bytes. bytes.items) (text_at self.old) result self.new }
    {
        self.word(b"\"")?;
        self.quoted(alloc)
    }
}
