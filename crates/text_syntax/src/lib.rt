//! Parsers of expressions, sets and filters.
//!
//! A recursive descent over the tokens of a text. Each production is a function that equals the
//! reader of its form (`specs/Reading.antt` of text_grammar), so that what holds of readers holds of
//! the code: the laws about them are proved in text_grammar, once for the whole grammar.
//!
//! | module | holds |
//! |---|---|
//! | `stop` | `Stop`, why a form is not read |
//! | `pieces` | tokens with their bytes, and what names, numbers and texts they write |
//! | `reserved` | the reserved words |
//! | `cursor` | `Cursor`, the tokens that are left to read |
//! | `atoms` | paths, literals and other operands |
//! | `begins` | with which token a form can begin |
//! | `lists` | lists, filters and `Find` |
//! | `nested` | one level of nesting |
//! | `exprs`, `sets`, `chains` | expressions, sets, and what follows a set |
//! | `outermost` | an expression or a set that no other holds, with its budget of tokens |
//! | `grammar` | `Grammar`, whose methods are the productions of expressions and sets |
#![tactic(auto)]

mod atoms;
mod begins;
mod chains;
mod cursor;
mod exprs;
mod grammar;
mod lists;
mod nested;
mod outermost;
mod pieces;
mod reserved;
mod sets;
mod stop;

pub use cursor::Cursor;
pub use outermost::{outermost_expression, outermost_set};
pub use pieces::{Piece, Word};
pub use stop::Stop;
