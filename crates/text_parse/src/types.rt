//! Types of fields.

ghost use Rattle.text_tree.specs.Grammar as form;
ghost use Rattle.text_tree.specs.Grammar.{most_levels};
ghost use Rattle.text_tree.specs.ExprGrammar.{parens, named};
ghost use Rattle.text_tree.specs.Forms.{either, mapped, token, Upper};
ghost use Rattle.text_syntax.specs.Reads.{Reads, reading};

use std::alloc::Global;
use text_lexer::TokenKind;
use text_syntax::{Cursor, Stop};
use text_tree::{Base, Named, Ty};

/// The name of a model in parentheses.
#[tactic(auto, unfolding(text_grammar::specs::Reading::read))]
pub fn model_in_parens(alloc: Global, cursor: &mut Cursor<'_>) -> Result<Named, Stop>
    ensures { Reads (reading most_levels (parens (mapped named
        (token Upper))) cursor.old) result cursor.new }
{
    cursor.sign(TokenKind::ParenOpen)?;
    let model = cursor.upper()?.named(alloc)?;
    cursor.sign(TokenKind::ParenClose)?;
    Ok(model)
}

/// A base type.
#[tactic(auto, unfolding(text_grammar::specs::Reading::read, text_tree::specs::Grammar::base_form))]
fn base(alloc: Global, cursor: &mut Cursor<'_>) -> Result<Base, Stop>
    ensures { Reads (reading most_levels form.base_form cursor.old) result cursor.new }
{
    if cursor.sees_word(TokenKind::Upper, b"Bool") {
        return Ok(Base::Bool(cursor.word(TokenKind::Upper, b"Bool")?.at()));
    }
    if cursor.sees_word(TokenKind::Upper, b"Int") {
        return Ok(Base::Int(cursor.word(TokenKind::Upper, b"Int")?.at()));
    }
    if cursor.sees_word(TokenKind::Upper, b"Text") {
        return Ok(Base::Text(cursor.word(TokenKind::Upper, b"Text")?.at()));
    }
    let word = cursor.word(TokenKind::Upper, b"Id")?;
    let model = model_in_parens(alloc, cursor)?;
    Ok(Base::Id(model, word.at()))
}

/// The type of a set of records.
#[tactic(auto, unfolding(text_grammar::specs::Reading::read, text_tree::specs::Grammar::set_type))]
pub fn set_type(alloc: Global, cursor: &mut Cursor<'_>) -> Result<Ty, Stop>
    ensures { Reads (reading most_levels form.set_type cursor.old) result cursor.new }
{
    let word = cursor.word(TokenKind::Upper, b"Set")?;
    cursor.sign(TokenKind::ParenOpen)?;
    cursor.word(TokenKind::Upper, b"Id")?;
    let model = model_in_parens(alloc, cursor)?;
    cursor.sign(TokenKind::ParenClose)?;
    Ok(Ty::Set(model, word.at()))
}

/// A type that is no set.
#[tactic(auto, unfolding(text_grammar::specs::Reading::read, text_tree::specs::Grammar::plain_type))]
pub fn plain_type(alloc: Global, cursor: &mut Cursor<'_>) -> Result<Ty, Stop>
    ensures { Reads (reading most_levels form.plain_type cursor.old) result cursor.new }
{
    if !cursor.sees_word(TokenKind::Upper, b"Option") {
        return Ok(Ty::Plain(base(alloc, cursor)?));
    }
    let word = cursor.word(TokenKind::Upper, b"Option")?;
    cursor.sign(TokenKind::ParenOpen)?;
    let inner = base(alloc, cursor)?;
    cursor.sign(TokenKind::ParenClose)?;
    Ok(Ty::Opt(inner, word.at()))
}

/// A type.
#[tactic(auto, unfolding(text_grammar::specs::Reading::read, text_tree::specs::Grammar::set_type))]
pub fn ty(alloc: Global, cursor: &mut Cursor<'_>) -> Result<Ty, Stop>
    ensures { Reads (reading most_levels
        (either form.set_type form.plain_type) cursor.old) result cursor.new }
{
    if cursor.sees_word(TokenKind::Upper, b"Set") {
        return set_type(alloc, cursor);
    }
    plain_type(alloc, cursor)
}
