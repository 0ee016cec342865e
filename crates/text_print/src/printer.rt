//! A text that grows.

ghost use Rattle.std.specs.Char.{digit_char};
ghost use Rattle.std.specs.Prelude.{◌≡◌, ◌<◌, ◌++◌, [], OnOk};
ghost use Rattle.std.specs.List.{flat_map, list_all};
ghost use Rattle.text_print.specs.Marks.{escape, is_plain, mark_bytes, number, quoted};
ghost use Rattle.text_print.specs.Marks.{text_of_marks};

use itoa::Buffer;
use std::alloc::{AllocError, Global};
use std::marker::Model;

/// A text that grows at its end. Contracts see its bytes.
#[derive(Drop)]
pub struct Printer {
    bytes: Vec<u8>,
}

impl Model for Printer {
    ghost use Rattle.std.specs.Prelude.{ℕ, List};

    ghost Value = { List ℕ };

    ghost view = { λ printer. printer.bytes.items };
}

impl Printer {
    /// The empty text.
    pub fn new(alloc: Global) -> Printer
        ensures { result ≡ [] }
    {
        Printer {
            bytes: Vec::new(alloc),
        }
    }

    /// Writes the bytes at the end.
    pub fn put(&mut self, bytes: &[u8]) -> Result<(), AllocError>
        ensures { OnOk result (self.new ≡ self.old ++ bytes.now) }
    {
        self.bytes.extend_from_slice(bytes)
    }

    /// Writes a number.
    pub fn number(&mut self, value: i64) -> Result<(), AllocError>
        ensures { OnOk result (self.new ≡ self.old ++ text_of_marks (number value)) }
    {
        let mut digits = Buffer::new();
        self.put(digits.format(value).as_bytes())
    }

    /// Writes a text between quotes.
    pub fn text(&mut self, bytes: &[u8]) -> Result<(), AllocError>
        ensures { OnOk result (self.new ≡ self.old ++ quoted bytes.now) }
    {
        self.put(b"\"")?;
        self.put_escaped(bytes)?;
        self.put(b"\"")
    }

    /// Writes what stands between the quotes of a text. Most texts stand for themselves.
    #[tactic(auto, using(crate::proofs::Plain::plain_text))]
    fn put_escaped(&mut self, bytes: &[u8]) -> Result<(), AllocError>
        ensures { OnOk result (self.new ≡ self.old ++ flat_map escape bytes.now) }
    {
        if are_plain(bytes) {
            self.put(bytes)
        } else {
            self.escape_each(bytes)
        }
    }

    /// Writes each byte of a text.
    fn escape_each(&mut self, bytes: &[u8]) -> Result<(), AllocError>
        ensures { OnOk result (self.new ≡ self.old ++ flat_map escape bytes.now) }
    {
        for byte in bytes {
            self.escaped(*byte)?;
        }
        Ok(())
    }

    /// Writes a byte between quotes.
    fn escaped(&mut self, byte: u8) -> Result<(), AllocError>
        ensures { OnOk result (self.new ≡ self.old ++ escape byte) }
    {
        match byte {
            b'"' => self.put(b"\\\""),
            b'\\' => self.put(b"\\\\"),
            b'\n' => self.put(b"\\n"),
            b'\r' => self.put(b"\\r"),
            b'\t' => self.put(b"\\t"),
            0..=31 | 127 => {
                let digits = [b'\\', b'x', hex_digit(byte / 16), hex_digit(byte % 16)];
                self.put(&digits)
            }
            _ => self.put(&[byte]),
        }
    }

    /// The bytes of the text.
    pub fn into_bytes(self) -> Vec<u8>
        ensures { result.items ≡ self }
    {
        self.bytes
    }
}

/// Whether a byte is written as itself between quotes. Nothing branches here and where a text is
/// looked at, so that it can become vector code.
fn is_plain(byte: u8) -> bool
    ensures { result ≡ is_plain byte }
{
    !((byte < 32) | (byte == b'"') | (byte == b'\\') | (byte == 127))
}

/// Whether each byte is written as itself between quotes.
fn are_plain(bytes: &[u8]) -> bool
    ensures { result ≡ list_all is_plain bytes.now }
{
    let mut plain = true;
    for byte in bytes {
        plain = plain & is_plain(*byte);
    }
    plain
}

/// The hexadecimal digit of this value.
fn hex_digit(value: u8) -> u8
    requires { value < 16 }
    ensures { result ≡ digit_char value }
{
    if value < 10 {
        b'0' + value
    } else {
        b'a' + (value - 10)
    }
}
