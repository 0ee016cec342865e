//! Fields that a command adds.

ghost use Rattle.text_lexer.specs.declared.token.TokenKind.TheVariants as k;
ghost use Rattle.text_tree.specs.ExprGrammar.{Expression, Set, behind, lambda, sign};
ghost use Rattle.text_tree.specs.Forms.{either, part, within};
ghost use Rattle.text_tree.specs.Grammar as form;
ghost use Rattle.text_tree.specs.Grammar.{most_levels, most_tokens};
ghost use Rattle.text_grammar.specs.Reading.{made};
ghost use Rattle.text_syntax.specs.Reads.{Reads, reading};

use crate::models::with_rights;
use crate::types::{plain_type, set_type};
use std::alloc::Global;
use text_lexer::TokenKind;
use text_syntax::{Cursor, Stop, Word, outermost_expression, outermost_set};
use text_tree::{Expr, Init, Policy, SetExpr, Ty};

/// The type of a field with its rights, the variable that stands for a record, and what the field
/// holds at first.
pub type Added<'a> = ((Ty, Policy, Policy), Word<'a>, Init);

/// A variable and a set.
#[tactic(auto, unfolding(text_grammar::specs::Reading::read))]
fn set_of_record<'a>(alloc: Global, cursor: &mut Cursor<'a>) -> Result<(Word<'a>, SetExpr), Stop>
    ensures { Reads (reading most_levels
        (lambda (within most_tokens (part Set))) cursor.old) result cursor.new }
{
    let record = cursor.lower()?;
    cursor.sign(TokenKind::Arrow)?;
    let set = outermost_set(alloc, cursor)?;
    Ok((record, set))
}

/// What was read, and behind a comma a variable and a set.
#[tactic(auto, unfolding(text_grammar::specs::Reading::read))]
fn with_set<'a, T: Drop>(
    alloc: Global,
    cursor: &mut Cursor<'a>,
    read: T,
) -> Result<(T, (Word<'a>, SetExpr)), Stop>
    ensures { Reads (made (λ v. (read, v)) (reading most_levels
        (behind (sign k.Comma) (lambda (within most_tokens (part Set)))) cursor.old))
        result cursor.new }
{
    cursor.sign(TokenKind::Comma)?;
    let set = set_of_record(alloc, cursor)?;
    Ok((read, set))
}

/// A variable and an expression.
#[tactic(auto, unfolding(text_grammar::specs::Reading::read))]
fn value_of_record<'a>(alloc: Global, cursor: &mut Cursor<'a>) -> Result<(Word<'a>, Expr), Stop>
    ensures { Reads (reading most_levels
        (lambda (within most_tokens (part Expression))) cursor.old) result cursor.new }
{
    let record = cursor.lower()?;
    cursor.sign(TokenKind::Arrow)?;
    let value = outermost_expression(alloc, cursor)?;
    Ok((record, value))
}

/// What was read, and behind a comma a variable and an expression.
#[tactic(auto, unfolding(text_grammar::specs::Reading::read))]
fn with_value<'a, T: Drop>(
    alloc: Global,
    cursor: &mut Cursor<'a>,
    read: T,
) -> Result<(T, (Word<'a>, Expr)), Stop>
    ensures { Reads (made (λ v. (read, v)) (reading most_levels
        (behind (sign k.Comma) (lambda (within most_tokens (part Expression)))) cursor.old))
        result cursor.new }
{
    cursor.sign(TokenKind::Comma)?;
    let value = value_of_record(alloc, cursor)?;
    Ok((read, value))
}

/// A set type with its rights, and what the field holds at first.
#[tactic(auto, unfolding(text_grammar::specs::Reading::read, text_tree::specs::Grammar::added_set))]
fn added_set<'a>(alloc: Global, cursor: &mut Cursor<'a>) -> Result<Added<'a>, Stop>
    ensures { Reads (reading most_levels form.added_set cursor.old) result cursor.new }
{
    let ty = set_type(alloc, cursor)?;
    let before = with_rights(alloc, cursor, ty)?;
    let ((ty, (read, write)), (record, set)) = with_set(alloc, cursor, before)?;
    Ok(((ty, read, write), record, Init::OfSet(set)))
}

/// Another type with its rights, and what the field holds at first.
#[tactic(auto, unfolding(text_grammar::specs::Reading::read, text_tree::specs::Grammar::added_plain))]
fn added_plain<'a>(alloc: Global, cursor: &mut Cursor<'a>) -> Result<Added<'a>, Stop>
    ensures { Reads (reading most_levels form.added_plain cursor.old) result cursor.new }
{
    let ty = plain_type(alloc, cursor)?;
    let before = with_rights(alloc, cursor, ty)?;
    let ((ty, (read, write)), (record, value)) = with_value(alloc, cursor, before)?;
    Ok(((ty, read, write), record, Init::Plain(value)))
}

/// A type with its rights, and what the field holds at first.
#[tactic(auto, unfolding(text_grammar::specs::Reading::read, text_tree::specs::Grammar::set_type, text_tree::specs::Grammar::added_set))]
pub fn added<'a>(alloc: Global, cursor: &mut Cursor<'a>) -> Result<Added<'a>, Stop>
    ensures { Reads (reading most_levels
        (either form.added_set form.added_plain) cursor.old) result cursor.new }
{
    if cursor.sees_word(TokenKind::Upper, b"Set") {
        return added_set(alloc, cursor);
    }
    added_plain(alloc, cursor)
}
