//! Specifications and scripts as texts.
//!
//! [`parse_spec`] and [`parse_script`] give the tree that a text spells, or a [`SyntaxErr`]: why it
//! spells none, and where. Each production is a function that equals the reader of its form in
//! `specs/Reading.antt` of text_grammar; the laws of text_grammar say what that reader answers.
//!
//! - `syntax_err`: [`SyntaxErr`], and [`What`] there may be too many of.
//! - `types`, `policies`, `models`: specifications and their parts.
//! - `rights`, `added`: what a command gives and adds.
//! - `of_model`, `commands`: commands that begin with the name of a model; all commands, scripts.
//! - `closed`: what stands before a sign.
//! - `texts`: whole texts.
//! - `laws`: what holds of any text.
#![tactic(auto)]

mod added;
mod closed;
mod commands;
mod laws;
mod models;
mod of_model;
mod policies;
mod rights;
mod syntax_err;
mod texts;
mod types;

pub use laws::{literals_have_their_value, one_script_text, one_spec_text};
pub use syntax_err::{SyntaxErr, What};
pub use texts::{parse_script, parse_spec};
