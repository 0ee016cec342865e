//! Why a text has no tokens.

ghost use Rattle.text_lexer.specs.Fault.{refusal_of};
ghost use Rattle.text_lexer.specs.declared.lex_err.LexErr.TheVariants.{OutOfMemory};
ghost use Rattle.std.specs.Prelude.{◌≡◌};

use std::alloc::AllocFailed;
use thiserror::Error;

/// What `lex` answers in place of tokens. `at` is the offset of a byte.
#[derive(Clone, Copy, Debug, PartialEq, Eq, Error)]
pub enum LexErr {
    /// The first byte of the first sequence that is not UTF-8.
    #[error("not text at {at}")]
    NotText { at: u32 },
    /// No token begins here, or a literal may not hold this byte or escape.
    #[error("bad byte at {at}")]
    BadByte { at: u32 },
    /// A run of digits with a needless leading zero, or above the largest number.
    #[error("bad number at {at}")]
    BadNumber { at: u32 },
    /// The opening quote of a literal that is not closed in its line.
    #[error("unfinished at {at}")]
    Unfinished { at: u32 },
    /// A word of too many bytes.
    #[error("too many name bytes at {at}")]
    TooManyNameBytes { at: u32 },
    /// The quote of a literal that stands for too many bytes.
    #[error("too many text bytes at {at}")]
    TooManyTextBytes { at: u32 },
    /// There was no memory for the tokens.
    #[error("out of memory")]
    OutOfMemory,
}

/// What stands in the way of a token.
#[derive(Clone, Copy, Debug, PartialEq, Eq)]
pub enum Cause {
    /// No token begins here, or a literal may not hold this byte or escape.
    BadByte,
    /// A run of digits with a needless leading zero, or above the largest number.
    BadNumber,
    /// The opening quote of a literal that is not closed in its line.
    Unfinished,
    /// A word of too many bytes.
    TooManyNameBytes,
    /// The quote of a literal that stands for too many bytes.
    TooManyTextBytes,
}

impl Cause {
    /// The answer of `lex` where this stands in the way at this offset.
    pub fn refusal(self, at: u32) -> LexErr
        ensures { result ≡ refusal_of self at }
    {
        match self {
            Cause::BadByte => LexErr::BadByte { at },
            Cause::BadNumber => LexErr::BadNumber { at },
            Cause::Unfinished => LexErr::Unfinished { at },
            Cause::TooManyNameBytes => LexErr::TooManyNameBytes { at },
            Cause::TooManyTextBytes => LexErr::TooManyTextBytes { at },
        }
    }
}

/// A cause and its place, counted from the first byte of what is read.
#[derive(Clone, Copy, Debug, PartialEq, Eq)]
pub struct Fault {
    pub cause: Cause,
    pub at: usize,
}

impl Fault {
    /// The fault of this cause at this place.
    pub fn new(cause: Cause, at: usize) -> Fault
        ensures { result ≡ record { cause = cause; at = at } }
    {
        Fault { cause, at }
    }
}

impl<T: Drop> From<AllocFailed<T>> for LexErr {
    ghost from_gives = { λ _ e. e ≡ OutOfMemory };

    fn from(_e: AllocFailed<T>) -> LexErr {
        LexErr::OutOfMemory
    }
}
