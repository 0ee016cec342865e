//! Text values.

ghost use Rattle.std.specs.Prelude.{◌≡◌, nat_eq, IfOk};
ghost use Rattle.std.specs.Cmp.Lexicographic.{pointwise};
ghost use Rattle.std.specs.Cmp.Rules.{comparing, hashing};
ghost use Rattle.std.specs.Hash as fed;
ghost use Rattle.std.specs.Option.{SomeIff};
ghost use Rattle.std.proofs.Common.{rules};
ghost use Rattle.text_ast.specs.Words.{IsText};

use std::alloc::{AllocError, Global};
use std::hash::{Hash, Hasher};
use std::marker::Model;
use text_lexer::limits::MOST_TEXT_BYTES;

/// A text: UTF-8 of at most 4,096 bytes. Contracts see its bytes.
#[derive(Debug, Drop)]
pub struct Txt {
    bytes: Vec<u8>,
}

impl Model for Txt {
    ghost use Rattle.std.specs.Prelude.{ℕ, List};

    ghost Value = { List ℕ };

    ghost use Rattle.text_ast.specs.Words.{IsText};

    ghost view = { λ text. text.bytes.items };

    ghost invariant = { λ text. IsText text.bytes.items };
}

impl Txt {
    /// The text that the bytes are, or None where they are not UTF-8 or more than 4,096.
    pub fn make(bytes: Vec<u8>) -> Option<Txt>
        ensures { SomeIff result (IsText bytes.items) bytes.items }
    {
        if bytes.len() > MOST_TEXT_BYTES {
            return None;
        }
        match str::from_utf8(bytes.as_slice()) {
            Ok(_) => Some(Txt { bytes }),
            Err(_) => None,
        }
    }

    /// The text that the bytes are.
    pub fn of(bytes: Vec<u8>) -> Txt
        requires { IsText bytes.items }
        ensures { result ≡ bytes.items }
    {
        Txt { bytes }
    }

    /// The bytes of the text.
    pub fn bytes(&self) -> &[u8]
        ensures bytes { result.now ≡ self.now }
        ensures text { IsText result.now }
    {
        self.bytes.as_slice()
    }

    /// An equal text, in memory of its own.
    pub fn copy(&self, alloc: Global) -> Result<Txt, AllocError>
        ensures { IfOk result (λ copy. copy ≡ self.now) }
    {
        let bytes = Vec::from_slice(alloc, self.bytes.as_slice())?;
        Ok(Txt { bytes })
    }
}

impl PartialEq for Txt {
    ghost eq = { pointwise nat_eq };

    ghost laws = { Prim.search (comparing, rules) };

    fn eq(&self, other: &Txt) -> bool {
        self.bytes.as_slice() == other.bytes.as_slice()
    }
}

impl Eq for Txt {
    ghost laws = { Prim.search (comparing, rules) };
}

impl Hash for Txt {
    ghost hash_input = { fed.slice fed.u8 };

    ghost respects_eq = { Prim.search (hashing, rules) };

    fn hash<H: Hasher>(&self, state: &mut H) {
        self.bytes.as_slice().hash(state);
    }
}
