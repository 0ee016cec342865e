//! Texts whose trees, or whose refusals, are known.

use std::alloc::Global;
use std::mem::size_of;
use std::test::Fail;
use text_lexer::{LexErr, Token, lex};
use text_parse::{SyntaxErr, parse_script, parse_spec};
use text_print::{print_script, print_spec};
use text_tree::{Expr, Script, SetExpr, Spec};

mod copies;
mod limits;
mod places;
mod refusals;
mod spellings;

// What the memory of a tree rests on.
const _: () = prove!(size_of::<Expr>() == 32);

const _: () = prove!(size_of::<SetExpr>() == 40);

/// How long a text of these tests may be.
const MOST_BYTES: usize = 1_048_576;

/// What a text is read as.
#[derive(Clone, Copy)]
enum Form {
    Spec,
    Script,
}

/// The tokens of a text of these tests.
fn tokens_of(alloc: Global, text: &[u8]) -> Result<Vec<Token>, LexErr> {
    if text.len() > MOST_BYTES {
        return Err(LexErr::OutOfMemory);
    }
    lex(alloc, text)
}

/// The specification that a text of these tests spells, each of which is short enough.
fn spec_of(alloc: Global, text: &[u8]) -> Result<Spec, SyntaxErr> {
    if text.len() > MOST_BYTES {
        return Err(SyntaxErr::OutOfMemory);
    }
    parse_spec(alloc, text)
}

/// The script that such a text spells.
fn script_of(alloc: Global, text: &[u8]) -> Result<Script, SyntaxErr> {
    if text.len() > MOST_BYTES {
        return Err(SyntaxErr::OutOfMemory);
    }
    parse_script(alloc, text)
}

/// What is answered for a text: `read`, or the report of why it is refused.
fn told(alloc: Global, form: Form, text: &[u8]) -> Result<String, Fail> {
    let refusal = match form {
        Form::Spec => spec_of(alloc, text).err(),
        Form::Script => script_of(alloc, text).err(),
    };
    match refusal {
        Some(refusal) => Ok(refusal.to_string(alloc)?),
        None => Ok("read".to_string(alloc)?),
    }
}

/// The canonical text of the specification that a text spells.
fn printed_spec(alloc: Global, text: &[u8]) -> Result<Vec<u8>, Fail> {
    let spec = spec_of(alloc, text)?;
    Ok(print_spec(alloc, &spec)?)
}

/// The canonical text of the script that a text spells.
fn printed_script(alloc: Global, text: &[u8]) -> Result<Vec<u8>, Fail> {
    let script = script_of(alloc, text)?;
    Ok(print_script(alloc, &script)?)
}

/// One text again and again.
fn repeated(
    alloc: Global,
    head: &[u8],
    part: &[u8],
    times: usize,
    tail: &[u8],
) -> Result<Vec<u8>, Fail> {
    let mut text = Vec::from_slice(alloc, head)?;
    for _ in 0..times {
        text.extend_from_slice(part)?;
    }
    text.extend_from_slice(tail)?;
    Ok(text)
}
