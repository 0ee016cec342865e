//! Values.

ghost use Rattle.std.specs.Prelude.{◌≡◌, ◌≤◌, Some, if◌then◌else◌};
ghost use Rattle.data_tree.specs.Grammar as form;
ghost use Rattle.data_tree.specs.Grammar.{rule, Value};
ghost use Rattle.data_tree.specs.Texts.{first_of};
ghost use Rattle.text_grammar.specs.Reading.{made, read_part, starts};
ghost use Rattle.text_lexer.specs.declared.limits.TheConstants.{LARGEST_NUMBER};
ghost use Rattle.text_syntax.specs.Reads.{Reads, cause_of};
ghost use Rattle.text_tree.specs.ExprGrammar as tree;
ghost use Rattle.text_tree.specs.Forms.{NotGrammar, TooDeep, first};
ghost use Rattle.data_parse.specs.Reads.{reading};

use crate::bare::text_of;
use data_tree::{Lit, WrittenId};
use std::alloc::Global;
use text_lexer::TokenKind;
use text_syntax::{Cursor, Stop};

/// Whether the next token begins `true` or `false`.
#[tactic(auto, unfolding(data_tree::specs::Grammar::flag))]
pub(crate) fn begins_flag(cursor: &Cursor<'_>) -> bool
    ensures { result ≡ starts (first first_of form.flag) cursor.now }
{
    cursor.sees_word(TokenKind::Lower, b"true") || cursor.sees_word(TokenKind::Lower, b"false")
}

/// Whether the next token begins a number.
#[tactic(auto, unfolding(data_tree::specs::Grammar::number))]
pub(crate) fn begins_number(cursor: &Cursor<'_>) -> bool
    ensures { result ≡ starts (first first_of form.number) cursor.now }
{
    cursor.sees_plain() || cursor.sees(TokenKind::Minus)
}

/// Whether the next token is a text in quotes.
#[tactic(auto, unfolding(data_tree::specs::Grammar::text))]
pub(crate) fn begins_text(cursor: &Cursor<'_>) -> bool
    ensures { result ≡ starts (first first_of form.text) cursor.now }
{
    cursor.sees_literal()
}

/// Whether the next token begins an id.
#[tactic(auto, unfolding(data_tree::specs::Grammar::id, data_tree::specs::Grammar::id_form))]
pub(crate) fn begins_id(cursor: &Cursor<'_>) -> bool
    ensures { result ≡ starts (first first_of form.id) cursor.now }
{
    cursor.sees(TokenKind::At)
}

/// Whether the next token begins `none` or `some`.
#[tactic(auto, unfolding(data_tree::specs::Grammar::option))]
pub(crate) fn begins_option(cursor: &Cursor<'_>) -> bool
    ensures { result ≡ starts (first first_of form.option) cursor.now }
{
    cursor.sees_word(TokenKind::Lower, b"none") || cursor.sees_word(TokenKind::Lower, b"some")
}

/// Whether the next token begins a list.
#[tactic(auto, unfolding(data_tree::specs::Grammar::list))]
fn begins_list(cursor: &Cursor<'_>) -> bool
    ensures { result ≡ starts (first first_of form.list) cursor.now }
{
    cursor.sees(TokenKind::BracketOpen)
}

/// Whether the next token begins a value.
#[tactic(auto, using(crate::proofs::Starts::value_starts))]
pub(crate) fn begins_value(cursor: &Cursor<'_>) -> bool
    ensures { result ≡ starts (first_of Value) cursor.now }
{
    if begins_flag(cursor) || begins_number(cursor) {
        return true;
    }
    if begins_text(cursor) || begins_id(cursor) {
        return true;
    }
    begins_option(cursor) || begins_list(cursor)
}

/// Why no value stands below as many as there may be.
pub(crate) fn value_stop(cursor: &Cursor<'_>) -> Stop
    ensures { cause_of result
        ≡ Some (if starts (first_of Value) cursor.now then TooDeep else NotGrammar) }
{
    if begins_value(cursor) {
        Stop::TooDeep
    } else {
        Stop::NotGrammar
    }
}

/// Minus this number.
fn minus(number: u64) -> i64
    requires some { 1 ≤ number }
    requires within { number ≤ LARGEST_NUMBER }
    ensures { result ≡ tree.minus number }
{
    -((number - 1) as i64) - 1
}

/// The productions of values, which nest so many levels deep.
#[derive(Clone, Copy)]
pub(crate) struct Values {
    pub(crate) alloc: Global,
    pub(crate) levels: u32,
}

impl Values {
    /// The number behind an `@`, and the offset of the `@`.
    #[tactic(auto, unfolding(text_grammar::specs::Reading::read, data_tree::specs::Grammar::id_form))]
    pub(crate) fn written_id(&self, cursor: &mut Cursor<'_>) -> Result<(u32, WrittenId), Stop>
        ensures { Reads (made (λ v. (v.0.at, v.1))
            (reading self.now.levels form.id_form cursor.old)) result cursor.new }
    {
        let sign = cursor.sign(TokenKind::At)?;
        let token = cursor.sign(TokenKind::Number)?;
        let id = WrittenId {
            number: token.number(),
            at: token.at(),
        };
        Ok((sign.at(), id))
    }

    /// `true` or `false`.
    #[tactic(auto, unfolding(text_grammar::specs::Reading::read, data_tree::specs::Grammar::flag))]
    pub(crate) fn flag(&self, cursor: &mut Cursor<'_>) -> Result<Lit, Stop>
        ensures { Reads (reading self.now.levels form.flag cursor.old) result cursor.new }
    {
        if cursor.sees_word(TokenKind::Lower, b"true") {
            let word = cursor.word(TokenKind::Lower, b"true")?;
            return Ok(Lit::Flag(true, word.at()));
        }
        let word = cursor.word(TokenKind::Lower, b"false")?;
        Ok(Lit::Flag(false, word.at()))
    }

    /// A number, maybe behind a minus.
    #[tactic(auto, unfolding(text_grammar::specs::Reading::read, data_tree::specs::Grammar::number))]
    pub(crate) fn number(&self, cursor: &mut Cursor<'_>) -> Result<Lit, Stop>
        ensures { Reads (reading self.now.levels form.number cursor.old) result cursor.new }
    {
        if cursor.sees_plain() {
            let token = cursor.plain()?;
            return Ok(Lit::Num(token.number() as i64, token.at()));
        }
        let sign = cursor.sign(TokenKind::Minus)?;
        let token = cursor.negated()?;
        Ok(Lit::Num(minus(token.number()), sign.at()))
    }

    /// A text in quotes.
    #[tactic(auto, unfolding(text_grammar::specs::Reading::read, data_tree::specs::Grammar::text))]
    pub(crate) fn text(&self, cursor: &mut Cursor<'_>) -> Result<Lit, Stop>
        ensures { Reads (reading self.now.levels form.text cursor.old) result cursor.new }
    {
        let token = cursor.literal()?;
        let text = text_of(self.alloc, &token)?;
        Ok(Lit::Str(text, token.at()))
    }

    /// An id.
    #[tactic(auto, unfolding(text_grammar::specs::Reading::read, data_tree::specs::Grammar::id))]
    pub(crate) fn id(&self, cursor: &mut Cursor<'_>) -> Result<Lit, Stop>
        ensures { Reads (reading self.now.levels form.id cursor.old) result cursor.new }
    {
        let (at, id) = self.written_id(cursor)?;
        Ok(Lit::Id(id, at))
    }
}
