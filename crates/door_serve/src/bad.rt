//! Lines that are no requests.

ghost use Rattle.std.specs.Prelude.{◌≡◌, ◌<◌, ◌^◌, IfOk, length};
ghost use Rattle.door_meaning.specs.Step.{IsBadAt, token_offset};

use std::alloc::{AllocError, Global};
use text_lexer::{Token, lex};
use text_parse::SyntaxErr;

/// The offset of the token with so many before it, or that of the end of the line.
fn offset_of(tokens: &[Token], token: u32, end: u32) -> u32
    ensures { result ≡ token_offset tokens.now token end }
{
    match tokens.get(token as usize) {
        Some(token) => token.at,
        None => end,
    }
}

/// Where a line that is refused is bad.
///
/// A line without tokens is refused for another cause than the grammar's, so here only memory can be
/// wanting.
pub(crate) fn bad_place(alloc: Global, line: &[u8], err: SyntaxErr) -> Result<u32, AllocError>
    requires { length line.now < 2 ^ 32 }
    ensures { IfOk result (IsBadAt line.now err) }
{
    match err {
        SyntaxErr::NotText { at }
        | SyntaxErr::BadByte { at }
        | SyntaxErr::BadNumber { at }
        | SyntaxErr::Unfinished { at }
        | SyntaxErr::TooDeep { at }
        | SyntaxErr::TooManyTokens { at }
        | SyntaxErr::TooMany { at, .. } => Ok(at),
        SyntaxErr::NotGrammar { token } => match lex(alloc, line) {
            Ok(tokens) => Ok(offset_of(tokens.as_slice(), token, line.len() as u32)),
            Err(_) => Err(AllocError),
        },
        SyntaxErr::OutOfMemory => Err(AllocError),
    }
}
