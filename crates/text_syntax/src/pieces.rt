//! Tokens with their bytes.

ghost use Rattle.std.specs.Prelude.{◌≡◌, ◌≤◌, IfOk};
ghost use Rattle.std.specs.Str.Parse.{digits_value};
ghost use Rattle.text_ast.specs.Pieces.{piece_of};
ghost use Rattle.text_ast.specs.Words.{IsName};
ghost use Rattle.text_lexer.specs.Lexeme.{IsLexeme};
ghost use Rattle.text_lexer.specs.declared.limits.TheConstants.{LARGEST_NUMBER};
ghost use Rattle.text_tree.specs.LiteralValue.{literal_value};
ghost use Rattle.text_tree.specs.ExprGrammar.{named};
ghost use Rattle.text_syntax.specs.Pieces.{IsTokenIn, IsWordKind};

use sqlite_items::Boxed;
use std::alloc::{AllocError, Global};
use std::marker::Model;
use text_ast::{Name, Txt};
use text_lexer::{Token, TokenKind, bytes_of, number_of, text_of};
use text_tree::Named;

/// A token of a text. Contracts see its kind, its bytes and the offset of the first of them.
#[derive(Drop)]
pub struct Piece<'a> {
    text: &'a [u8],
    token: Token,
}

impl<'a> Model for Piece<'a> {
    ghost use Rattle.text_ast.specs.Pieces.{Piece, piece_of};

    ghost Value = { Piece };

    ghost use Rattle.text_syntax.specs.Pieces.{IsTokenIn};

    ghost view = { λ p. piece_of p.text.now p.token };

    ghost invariant = { λ p. IsTokenIn p.text.now p.token };
}

impl<'a> Piece<'a> {
    /// A token of a text.
    pub fn new(text: &'a [u8], token: Token) -> Piece<'a>
        requires { IsTokenIn text.now token }
        ensures { result ≡ piece_of text.now token }
    {
        Piece { text, token }
    }

    /// Its kind.
    pub fn kind(&self) -> TokenKind
        ensures { result ≡ self.now.kind }
    {
        self.token.kind
    }

    /// The offset of its first byte.
    pub fn at(&self) -> u32
        ensures { result ≡ self.now.at }
    {
        self.token.at
    }

    /// Its bytes.
    pub fn bytes(&self) -> &'a [u8]
        ensures bytes { result.now ≡ self.now.bytes }
        ensures lexeme { IsLexeme (record { kind = self.now.kind; bytes = self.now.bytes }) }
    {
        bytes_of(self.text, self.token)
    }

    /// The number that the token writes.
    pub fn number(&self) -> u64
        requires { self.now.kind ≡ TokenKind.Number }
        ensures value { result ≡ digits_value 10 self.now.bytes }
        ensures limit { result ≤ LARGEST_NUMBER }
    {
        number_of(self.text, self.token)
    }

    /// The text that the token stands for.
    pub fn text(&self, alloc: Global) -> Result<Txt, AllocError>
        requires { self.now.kind ≡ TokenKind.Text }
        ensures { IfOk result (λ text. text ≡ literal_value self.now.bytes) }
    {
        let bytes = text_of(alloc, self.text, self.token)?;
        Ok(Txt::of(bytes))
    }

    /// The word that the token is.
    pub fn word(&self) -> Word<'a>
        requires { IsWordKind self.now.kind }
        ensures { result ≡ self.now }
    {
        Word {
            bytes: self.bytes(),
            kind: self.kind(),
            at: self.at(),
        }
    }
}

/// A token that is a name. Contracts see it as they see the token.
#[derive(Drop)]
pub struct Word<'a> {
    kind: TokenKind,
    bytes: &'a [u8],
    at: u32,
}

impl<'a> Model for Word<'a> {
    ghost use Rattle.text_ast.specs.Pieces.{Piece};
    ghost use Rattle.text_ast.specs.Words.{IsName};

    ghost Value = { Piece };

    ghost view = { λ w. record { kind = w.kind; bytes = w.bytes.now; at = w.at } };

    ghost invariant = { λ w. IsName w.bytes.now };
}

impl<'a> Word<'a> {
    /// The offset of its first byte.
    pub fn at(&self) -> u32
        ensures { result ≡ self.now.at }
    {
        self.at
    }

    /// The name, at its place.
    pub fn named(&self, alloc: Global) -> Result<Named, AllocError>
        ensures { IfOk result (λ name. name ≡ named self.now) }
    {
        let name = Name::of(alloc, self.bytes)?;
        Ok(Named { name, at: self.at })
    }

    /// The same, in a box.
    pub fn boxed_name(&self, alloc: Global) -> Result<Boxed<Named>, AllocError>
        ensures { IfOk result (λ name. name ≡ named self.now) }
    {
        let name = self.named(alloc)?;
        Boxed::new(alloc, name)
    }
}
