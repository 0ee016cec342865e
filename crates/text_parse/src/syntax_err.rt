//! Why a text has no tree.

ghost use Rattle.std.specs.Prelude.{◌≡◌, Some};
ghost use Rattle.text_parse.specs.Refused.{of_lex, what_text};
ghost use Rattle.text_parse.specs.declared.syntax_err.SyntaxErr.TheVariants.{OutOfMemory};

use std::alloc::AllocFailed;
use std::fmt;
use text_lexer::LexErr;
use thiserror::Error;

/// What there may be too many of.
#[derive(Clone, Copy, Debug, PartialEq, Eq)]
pub enum What {
    /// Static principals, of which there are at most 64.
    Statics,
    /// Models, of which there are at most 64.
    Models,
    /// Fields of a model, of which there are at most 64.
    Fields,
    /// Commands, of which there are at most 256.
    Commands,
    /// Bytes of a name, of which there are at most 64.
    NameBytes,
    /// Bytes of a text, of which there are at most 4,096.
    TextBytes,
}

impl fmt::Display for What {
    ghost output = { λ what. Some (what_text what) };

    fn fmt<W: fmt::Write>(&self, f: &mut fmt::Formatter<W>) -> fmt::Result {
        f.write_str(match self {
            What::Statics => "statics",
            What::Models => "models",
            What::Fields => "fields",
            What::Commands => "commands",
            What::NameBytes => "name bytes",
            What::TextBytes => "text bytes",
        })
    }
}

/// What the parsers answer in place of a tree. `at` is the offset of a byte.
#[derive(Clone, Copy, Debug, PartialEq, Eq, Error)]
pub enum SyntaxErr {
    /// The first byte of the first sequence that is not UTF-8.
    #[error("not text at {at}")]
    NotText { at: u32 },
    /// No token begins here, or a literal may not hold this byte or escape.
    #[error("bad byte at {at}")]
    BadByte { at: u32 },
    /// A run of digits with a needless leading zero, or above the largest number.
    #[error("bad number at {at}")]
    BadNumber { at: u32 },
    /// The opening quote of a literal that is not closed in its line.
    #[error("unfinished at {at}")]
    Unfinished { at: u32 },
    /// The number, from 0, of the first token with which the tokens up to it begin no text of the
    /// form; or how many tokens there are, where they end too early.
    #[error("not grammar at token {token}")]
    NotGrammar { token: u32 },
    /// The first token of an expression or a set at the level 65.
    #[error("too deep at {at}")]
    TooDeep { at: u32 },
    /// The token 1,025 of an outermost expression or set.
    #[error("too many tokens at {at}")]
    TooManyTokens { at: u32 },
    /// The first token of one item too many, or a name or text that is too long.
    #[error("too many {what} at {at}")]
    TooMany { what: What, at: u32 },
    /// There was no memory for the tree.
    #[error("out of memory")]
    OutOfMemory,
}

impl From<LexErr> for SyntaxErr {
    ghost from_gives = { λ e err. err ≡ of_lex e };

    fn from(e: LexErr) -> SyntaxErr {
        match e {
            LexErr::NotText { at } => SyntaxErr::NotText { at },
            LexErr::BadByte { at } => SyntaxErr::BadByte { at },
            LexErr::BadNumber { at } => SyntaxErr::BadNumber { at },
            LexErr::Unfinished { at } => SyntaxErr::Unfinished { at },
            LexErr::TooManyNameBytes { at } => SyntaxErr::TooMany {
                what: What::NameBytes,
                at,
            },
            LexErr::TooManyTextBytes { at } => SyntaxErr::TooMany {
                what: What::TextBytes,
                at,
            },
            LexErr::OutOfMemory => SyntaxErr::OutOfMemory,
        }
    }
}
