//! A scanner over the bytes of a text.

ghost use Rattle.std.specs.Prelude.{◌≡◌, ◌+◌, ◌-◌, ◌*◌, ◌^◌, ◌<◌, ◌≤◌, IsTrue, if◌then◌else◌, ◌==◌};
ghost use Rattle.std.specs.Prelude.{Some, None, nat_lt, length, take};
ghost use Rattle.std.specs.Char.{is_ascii_digit};
ghost use Rattle.std.specs.List.{prefix_len};
ghost use Rattle.std.specs.Str.{bytes_eq};
ghost use Rattle.text_ast.specs.Words.{is_name_byte};
ghost use Rattle.data_back.specs.Reading as spec;
ghost use Rattle.data_back.specs.Reading.{Reads, ReadsAs, Takes, name_at, number_from, signed_at, word_at};

use crate::stop::Stop;
use std::marker::Model;

/// The bytes of a text that are left to read. Contracts see them.
#[derive(Drop)]
pub struct Scanner<'a> {
    pub(crate) rest: &'a [u8],
}

impl<'a> Model for Scanner<'a> {
    ghost use Rattle.std.specs.Prelude.{ℕ, List};

    ghost Value = { List ℕ };

    ghost view = { λ s. s.rest.now };
}

/// Whether two texts are the same bytes.
fn same(a: &[u8], b: &[u8]) -> bool
    ensures { result ≡ bytes_eq a.now b.now }
{
    a == b
}

/// The number with one more digit, where it has 64 bits.
fn grown(number: u64, digit: u8) -> Option<u64>
    requires { IsTrue (is_ascii_digit digit) }
    ensures { result ≡ (if nat_lt (10 * number + (digit - 48)) (2 ^ 64)
        then Some (10 * number + (digit - 48)) else None) }
{
    let grown = 10 * u128::from(number) + u128::from(digit - b'0');
    if grown <= u128::from(u64::MAX) {
        Some(grown as u64)
    } else {
        None
    }
}

/// Minus the number.
fn minus(number: u64) -> i64
    requires { number ≤ 2 ^ 63 }
    ensures { result ≡ spec.minus number }
{
    if number == 0 {
        return 0;
    }
    -((number - 1) as i64) - 1
}

/// Whether a byte may stand in a name.
fn is_name_byte(byte: u8) -> bool
    ensures { result ≡ is_name_byte byte }
{
    matches!(byte, b'A'..=b'Z' | b'a'..=b'z' | b'0'..=b'9' | b'_')
}

/// How many bytes at the front may stand in a name.
fn name_end(text: &[u8]) -> usize
    ensures value { result ≡ prefix_len is_name_byte text.now }
    ensures within { result ≤ length text.now }
{
    let mut end = 0;
    while end < text.len() && is_name_byte(text[end]) {
        end += 1;
    }
    end
}

impl<'a> Scanner<'a> {
    /// All bytes of the text.
    pub fn new(text: &'a [u8]) -> Scanner<'a>
        ensures { result ≡ text.now }
    {
        Scanner { rest: text }
    }

    /// How many bytes are left.
    pub fn len(&self) -> usize
        ensures { result ≡ length self.now }
    {
        self.rest.len()
    }

    /// Whether none is left.
    pub fn is_empty(&self) -> bool
        ensures { result ≡ (length self.now == 0) }
    {
        self.rest.is_empty()
    }

    /// Whether the word stands at the front.
    fn sees(&self, word: &[u8]) -> bool
        ensures { result ≡ bytes_eq (take (length word.now) self.now) word.now }
    {
        match self.rest.split_at_checked(word.len()) {
            Some((front, _)) => same(front, word),
            None => false,
        }
    }

    /// Passes over the word.
    pub fn word(&mut self, word: &[u8]) -> Result<(), Stop>
        ensures { Reads (word_at word.now self.old) result self.new }
    {
        if self.takes(word) {
            Ok(())
        } else {
            Err(Stop::Unlike)
        }
    }

    /// Passes over the word, if it stands at the front.
    pub fn takes(&mut self, word: &[u8]) -> bool
        ensures { Takes (word_at word.now self.old) self.old result self.new }
    {
        if !self.sees(word) {
            return false;
        }
        self.rest = &self.rest[word.len()..];
        true
    }

    /// The number at the front, of 64 bits; it is 0 where no digit stands there.
    pub fn number(&mut self) -> Result<u64, Stop>
        ensures { Reads (number_from 0 self.old) result self.new }
    {
        let mut number = 0;
        while let [digit, rest @ ..] = self.rest {
            if !digit.is_ascii_digit() {
                break;
            }
            number = grown(number, *digit).ok_or(Stop::Unlike)?;
            self.rest = rest;
        }
        Ok(number)
    }

    /// The number at the front, of 64 bits with a sign; it is 0 where no digit stands there.
    pub fn signed(&mut self) -> Result<i64, Stop>
        ensures { Reads (signed_at self.old) result self.new }
    {
        match self.rest {
            [b'-', rest @ ..] => {
                self.rest = rest;
                let number = self.number()?;
                if number > 1 << 63 {
                    return Err(Stop::Unlike);
                }
                Ok(minus(number))
            }
            _ => {
                let number = self.number()?;
                if number >= 1 << 63 {
                    return Err(Stop::Unlike);
                }
                Ok(number as i64)
            }
        }
    }

    /// The name at the front: the letters, digits and `_` that stand there, maybe none.
    pub fn name(&mut self) -> Result<&'a [u8], Stop>
        ensures { ReadsAs (λ name. name.now) (name_at self.old) result self.new }
    {
        let (name, rest) = self.rest.split_at(name_end(self.rest));
        self.rest = rest;
        Ok(name)
    }
}
