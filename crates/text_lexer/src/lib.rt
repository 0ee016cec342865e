//! The tokens of a text.
//!
//! Specifications, migration scripts and databases are written in one set of tokens: words, numbers,
//! texts in quotes and signs, with blanks and comments between them. [`lex`] cuts a text into its
//! tokens, and says where each begins and ends; parsers go on from there. The rules stand in
//! `specs/`, the relation of a text and its tokens in `specs/Lexes.antt`.
//!
//! - `token`: [`Token`], [`TokenKind`], and [`bytes_of`], the bytes of a token.
//! - `lex_err`: [`LexErr`], what `lex` answers where a text has no tokens: the cause and its place.
//! - `limits`: how long a name and a text may be, and how large a number.
//! - `gap`, `word`, `number`, `literal`, `sign`: what may stand at the front of a text, one kind of
//!   thing each.
//! - `front`: the token at the front of a text.
//! - `text`: [`lex`], the tokens of a whole text.
//! - `laws`: what holds of the tokens of any text.

#![tactic(auto)]

mod front;
mod gap;
mod laws;
mod lex_err;
pub mod limits;
mod literal;
mod number;
mod sign;
#[cfg(test)]
mod tests;
mod text;
mod token;
mod word;

pub use laws::{
    literals_are_texts, one_answer, one_token_list, tokens_are_lexemes, tokens_in_order,
    written_lexemes_are_tokens,
};
pub use lex_err::LexErr;
pub use literal::text_of;
pub use number::number_of;
pub use text::lex;
pub use token::{Token, TokenKind, bytes_of};
