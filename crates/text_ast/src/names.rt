//! Names.

ghost use Rattle.std.specs.Prelude.{◌≡◌, IfOk};
ghost use Rattle.std.specs.List.{list_all};
ghost use Rattle.std.specs.Option.{SomeIff};
ghost use Rattle.text_ast.specs.Words.{is_letter, is_name_byte, begins_with_letter, is_name, IsName};

use crate::rooms::Room;
use std::alloc::{AllocError, Global};
use std::marker::Model;
use text_lexer::limits::MOST_NAME_BYTES;

/// The name of a static, a model, a field or a variable: 1 to 64 ASCII letters, digits and `_`,
/// the first of them a letter. Contracts see its bytes.
#[derive(Debug, Drop)]
pub struct Name {
    room: Room,
}

impl Model for Name {
    ghost use Rattle.std.specs.Prelude.{ℕ, List};

    ghost Value = { List ℕ };

    ghost use Rattle.text_ast.specs.Words.{IsName};

    ghost view = { λ name. name.room };

    ghost invariant = { λ name. IsName name.room };
}

impl Name {
    /// The name that the bytes are, or None where they are none.
    pub fn make(alloc: Global, bytes: &[u8]) -> Result<Option<Name>, AllocError>
        ensures { IfOk result (λ made. SomeIff made (IsName bytes.now) bytes.now) }
    {
        Ok(if is_name(bytes) {
            Some(Name::of(alloc, bytes)?)
        } else {
            None
        })
    }

    /// The name that the bytes are.
    pub fn of(alloc: Global, bytes: &[u8]) -> Result<Name, AllocError>
        requires { IsName bytes.now }
        ensures { IfOk result (λ name. name ≡ bytes.now) }
    {
        let room = Room::new(alloc, bytes)?;
        Ok(Name { room })
    }

    /// The bytes of the name.
    pub fn bytes(&self) -> &[u8]
        ensures bytes { result.now ≡ self.now }
        ensures name { IsName result.now }
    {
        self.room.bytes()
    }

    /// An equal name, in memory of its own.
    pub fn copy(&self, alloc: Global) -> Result<Name, AllocError>
        ensures { IfOk result (λ copy. copy ≡ self.now) }
    {
        Name::of(alloc, self.bytes())
    }
}

/// Whether a byte is an ASCII letter.
fn is_letter(byte: u8) -> bool
    ensures { result ≡ is_letter byte }
{
    matches!(byte, b'A'..=b'Z' | b'a'..=b'z')
}

/// Whether a byte may stand in a name: an ASCII letter, a digit or `_`.
fn is_name_byte(byte: u8) -> bool
    ensures { result ≡ is_name_byte byte }
{
    is_letter(byte) || matches!(byte, b'0'..=b'9') || byte == b'_'
}

/// Whether the first byte is a letter.
fn begins_with_letter(bytes: &[u8]) -> bool
    ensures { result ≡ begins_with_letter bytes.now }
{
    match bytes {
        [] => false,
        [first, ..] => is_letter(*first),
    }
}

/// Whether each byte may stand in a name.
fn are_name_bytes(bytes: &[u8]) -> bool
    ensures { result ≡ list_all is_name_byte bytes.now }
{
    bytes.iter().all(|byte| is_name_byte(*byte))
}

/// Whether the bytes are a name.
fn is_name(bytes: &[u8]) -> bool
    ensures { result ≡ is_name bytes.now }
{
    begins_with_letter(bytes) && are_name_bytes(bytes) && bytes.len() <= MOST_NAME_BYTES
}
