//! The rights that a command gives, and its reason.

ghost use Rattle.std.specs.Prelude.{Some, None};
ghost use Rattle.text_lexer.specs.declared.token.TokenKind.TheVariants as k;
ghost use Rattle.text_tree.specs.ExprGrammar.{behind, sign};
ghost use Rattle.text_tree.specs.Forms.{either, mapped, nothing};
ghost use Rattle.text_tree.specs.Grammar as form;
ghost use Rattle.text_tree.specs.Grammar.{most_levels};
ghost use Rattle.text_grammar.specs.Reading.{made};
ghost use Rattle.text_syntax.specs.Reads.{Reads, reading};
ghost use Rattle.text_parse.specs.Parts.{first_and_more, second_alone};

use crate::closed::closed;
use crate::policies::right;
use std::alloc::Global;
use text_lexer::TokenKind;
use text_syntax::{Cursor, Stop};
use text_tree::{Policy, Reason};

/// Two rights, of which one at least is given.
type Rights = (Option<Policy>, Option<Policy>);

/// The second of two rights behind a comma, if there is one.
#[tactic(auto, unfolding(text_grammar::specs::Reading::read))]
fn second_right(alloc: Global, cursor: &mut Cursor<'_>, word: &[u8]) -> Result<Option<Policy>, Stop>
    ensures { Reads (reading most_levels
        (either (mapped Some (behind (sign k.Comma) (form.right word.now))) (nothing None))
        cursor.old) result cursor.new }
{
    if !cursor.sees(TokenKind::Comma) {
        return Ok(None);
    }
    cursor.sign(TokenKind::Comma)?;
    Ok(Some(right(alloc, cursor, word)?))
}

/// The first right, and maybe the second.
fn first_and_more(
    alloc: Global,
    cursor: &mut Cursor<'_>,
    one: &[u8],
    two: &[u8],
) -> Result<Rights, Stop>
    ensures { Reads
        (reading most_levels (first_and_more one.now two.now) cursor.old) result cursor.new }
{
    let first = right(alloc, cursor, one)?;
    let second = second_right(alloc, cursor, two)?;
    Ok((Some(first), second))
}

/// The second right alone.
#[tactic(auto, unfolding(text_grammar::specs::Reading::read))]
fn second_alone(alloc: Global, cursor: &mut Cursor<'_>, two: &[u8]) -> Result<Rights, Stop>
    ensures { Reads (reading most_levels (second_alone two.now) cursor.old) result cursor.new }
{
    let second = right(alloc, cursor, two)?;
    Ok((None, Some(second)))
}

/// One right or both, in their order.
fn one_or_both(
    alloc: Global,
    cursor: &mut Cursor<'_>,
    one: &[u8],
    two: &[u8],
) -> Result<Rights, Stop>
    ensures { Reads (reading most_levels
        (either (first_and_more one.now two.now) (second_alone two.now))
        cursor.old) result cursor.new }
{
    if cursor.sees_word(TokenKind::Lower, one) {
        return first_and_more(alloc, cursor, one, two);
    }
    second_alone(alloc, cursor, two)
}

/// One right or both, in braces.
fn rights(alloc: Global, cursor: &mut Cursor<'_>, one: &[u8], two: &[u8]) -> Result<Rights, Stop>
    ensures { Reads
        (reading most_levels (form.rights one.now two.now) cursor.old) result cursor.new }
{
    cursor.sign(TokenKind::BraceOpen)?;
    let rights = one_or_both(alloc, cursor, one, two)?;
    closed(cursor, TokenKind::BraceClose, rights)
}

/// Rights on a field.
#[tactic(auto, unfolding(text_tree::specs::Grammar::field_right_list))]
pub fn field_right_list(alloc: Global, cursor: &mut Cursor<'_>) -> Result<Rights, Stop>
    ensures { Reads (reading most_levels form.field_right_list cursor.old) result cursor.new }
{
    rights(alloc, cursor, b"read", b"write")
}

/// Rights on a model.
#[tactic(auto, unfolding(text_tree::specs::Grammar::model_right_list))]
pub fn model_right_list(alloc: Global, cursor: &mut Cursor<'_>) -> Result<Rights, Stop>
    ensures { Reads (reading most_levels form.model_right_list cursor.old) result cursor.new }
{
    rights(alloc, cursor, b"create", b"delete")
}

/// A reason.
#[tactic(auto, unfolding(text_grammar::specs::Reading::read, text_tree::specs::Grammar::reason_form))]
fn reason(alloc: Global, cursor: &mut Cursor<'_>) -> Result<Reason, Stop>
    ensures { Reads (reading most_levels form.reason_form cursor.old) result cursor.new }
{
    let token = cursor.literal()?;
    let text = token.text(alloc)?;
    Ok(Reason {
        text,
        at: token.at(),
    })
}

/// What was read, and a reason behind a comma.
#[tactic(auto, unfolding(text_grammar::specs::Reading::read))]
pub fn reasoned<T: Drop>(
    alloc: Global,
    cursor: &mut Cursor<'_>,
    read: T,
) -> Result<(T, Reason), Stop>
    ensures { Reads (made (λ reason. (read, reason))
        (reading most_levels (behind (sign k.Comma) form.reason_form)
        cursor.old)) result cursor.new }
{
    cursor.sign(TokenKind::Comma)?;
    let reason = reason(alloc, cursor)?;
    Ok((read, reason))
}
