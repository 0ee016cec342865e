//! Policies, and the rights that they stand behind.

ghost use Rattle.text_tree.specs.Grammar as form;
ghost use Rattle.text_tree.specs.Grammar.{most_levels};
ghost use Rattle.text_syntax.specs.Reads.{Reads, reading};

use std::alloc::Global;
use text_lexer::TokenKind;
use text_syntax::{Cursor, Stop, outermost_set};
use text_tree::Policy;

/// A policy.
#[tactic(auto, unfolding(text_grammar::specs::Reading::read, text_tree::specs::Grammar::policy_form))]
pub fn policy(alloc: Global, cursor: &mut Cursor<'_>) -> Result<Policy, Stop>
    ensures { Reads (reading most_levels form.policy_form cursor.old) result cursor.new }
{
    if cursor.sees_word(TokenKind::Lower, b"public") {
        let word = cursor.word(TokenKind::Lower, b"public")?;
        return Ok(Policy::Everyone(word.at()));
    }
    if cursor.sees_word(TokenKind::Lower, b"none") {
        let word = cursor.word(TokenKind::Lower, b"none")?;
        return Ok(Policy::Nobody(word.at()));
    }
    let variable = cursor.lower()?.named(alloc)?;
    cursor.sign(TokenKind::Arrow)?;
    let set = outermost_set(alloc, cursor)?;
    Ok(Policy::Fun(variable, set))
}

/// A right, named by this word, with its policy.
#[tactic(auto, unfolding(text_grammar::specs::Reading::read))]
pub fn right(alloc: Global, cursor: &mut Cursor<'_>, word: &[u8]) -> Result<Policy, Stop>
    ensures { Reads (reading most_levels (form.right word.now) cursor.old) result cursor.new }
{
    cursor.word(TokenKind::Lower, word)?;
    cursor.sign(TokenKind::Colon)?;
    policy(alloc, cursor)
}
