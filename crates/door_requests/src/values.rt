//! Values.

ghost use Rattle.std.specs.Prelude.{◌≡◌, ◌≤◌, Some, if◌then◌else◌};
ghost use Rattle.door_requests.specs.Grammar as form;
ghost use Rattle.door_requests.specs.Grammar.{rule};
ghost use Rattle.door_requests.specs.Texts.{first_of};
ghost use Rattle.text_grammar.specs.Reading.{made, read_part, starts};
ghost use Rattle.text_lexer.specs.declared.limits.TheConstants.{LARGEST_NUMBER};
ghost use Rattle.text_syntax.specs.Parts.{applied};
ghost use Rattle.text_syntax.specs.Reads.{Reads, cause_of};
ghost use Rattle.text_tree.specs.ExprGrammar as tree;
ghost use Rattle.text_tree.specs.Forms.{NotGrammar, TooDeep, first};
ghost use Rattle.door_requests.specs.Reads.{reading};

use crate::place::Place;
use crate::requests::{Head, Spot, Who};
use data_tree::{Lit, WrittenId};
use std::alloc::Global;
use text_lexer::TokenKind;
use text_syntax::{Cursor, Stop};
use text_tree::Named;

/// Whether the next token begins `true` or `false`.
#[tactic(auto, unfolding(crate::specs::Grammar::flag))]
pub(crate) fn begins_flag(cursor: &Cursor<'_>) -> bool
    ensures { result ≡ starts (first first_of form.flag) cursor.now }
{
    cursor.sees_word(TokenKind::Lower, b"true") || cursor.sees_word(TokenKind::Lower, b"false")
}

/// Whether the next token begins a number.
#[tactic(auto, unfolding(crate::specs::Grammar::number))]
pub(crate) fn begins_number(cursor: &Cursor<'_>) -> bool
    ensures { result ≡ starts (first first_of form.number) cursor.now }
{
    cursor.sees_plain() || cursor.sees(TokenKind::Minus)
}

/// Whether the next token is a text in quotes.
#[tactic(auto, unfolding(crate::specs::Grammar::text))]
pub(crate) fn begins_text(cursor: &Cursor<'_>) -> bool
    ensures { result ≡ starts (first first_of form.text) cursor.now }
{
    cursor.sees_literal()
}

/// Whether the next token begins an id.
#[tactic(auto, unfolding(crate::specs::Grammar::id, crate::specs::Grammar::id_form))]
pub(crate) fn begins_id(cursor: &Cursor<'_>) -> bool
    ensures { result ≡ starts (first first_of form.id) cursor.now }
{
    cursor.sees(TokenKind::At)
}

/// Whether the next token begins the number of a record.
#[tactic(auto, unfolding(crate::specs::Grammar::record_form, crate::specs::Grammar::id_form))]
fn begins_record(cursor: &Cursor<'_>) -> bool
    ensures { result ≡ starts (first first_of form.record_form) cursor.now }
{
    cursor.sees(TokenKind::At)
}

/// Whether the next token is `self`.
#[tactic(auto, unfolding(crate::specs::Grammar::own))]
pub(crate) fn begins_own(cursor: &Cursor<'_>) -> bool
    ensures { result ≡ starts (first first_of form.own) cursor.now }
{
    cursor.sees_word(TokenKind::Lower, b"self")
}

/// Minus this number.
fn minus(number: u64) -> i64
    requires some { 1 ≤ number }
    requires within { number ≤ LARGEST_NUMBER }
    ensures { result ≡ tree.minus number }
{
    -((number - 1) as i64) - 1
}

/// The productions of values, which nest so many levels deep.
#[derive(Clone, Copy)]
pub(crate) struct Values {
    pub(crate) alloc: Global,
    pub(crate) place: Place,
    pub(crate) levels: u32,
}

impl Values {
    /// Whether the next token begins `none` or `some`.
    #[tactic(auto, unfolding(crate::specs::Grammar::option))]
    pub(crate) fn begins_option(&self, cursor: &Cursor<'_>) -> bool
        ensures { result ≡ starts (first first_of (form.option self.now.place)) cursor.now }
    {
        cursor.sees_word(TokenKind::Lower, b"none") || cursor.sees_word(TokenKind::Lower, b"some")
    }

    /// Whether the next token begins a list.
    #[tactic(auto, unfolding(crate::specs::Grammar::list))]
    fn begins_list(&self, cursor: &Cursor<'_>) -> bool
        ensures { result ≡ starts (first first_of (form.list self.now.place)) cursor.now }
    {
        cursor.sees(TokenKind::BracketOpen)
    }

    /// Whether the next token begins a value other than `self`.
    #[tactic(auto, using(crate::proofs::Starts::common_starts))]
    fn begins_common(&self, cursor: &Cursor<'_>) -> bool
        ensures { result ≡ starts (first first_of (form.common self.now.place)) cursor.now }
    {
        if begins_flag(cursor) || begins_number(cursor) {
            return true;
        }
        if begins_text(cursor) || begins_id(cursor) {
            return true;
        }
        self.begins_option(cursor) || self.begins_list(cursor)
    }

    /// Whether the next token begins a value.
    #[tactic(auto, using(crate::proofs::Starts::plain_starts, crate::proofs::Starts::row_starts))]
    pub(crate) fn begins_value(&self, cursor: &Cursor<'_>) -> bool
        ensures { result ≡ starts (first_of self.now.place) cursor.now }
    {
        match self.place {
            Place::Plain => self.begins_common(cursor),
            Place::NewRow => begins_own(cursor) || self.begins_common(cursor),
        }
    }

    /// Why no value stands below as many as there may be.
    pub(crate) fn value_stop(&self, cursor: &Cursor<'_>) -> Stop
        ensures { cause_of result
            ≡ Some (if starts (first_of self.now.place) cursor.now then TooDeep else NotGrammar) }
    {
        if self.begins_value(cursor) {
            Stop::TooDeep
        } else {
            Stop::NotGrammar
        }
    }

    /// `self`.
    #[tactic(auto, unfolding(text_grammar::specs::Reading::read, crate::specs::Grammar::own))]
    pub(crate) fn own(&self, cursor: &mut Cursor<'_>) -> Result<Lit, Stop>
        ensures { Reads (reading self.now.levels form.own cursor.old) result cursor.new }
    {
        let word = cursor.word(TokenKind::Lower, b"self")?;
        Ok(Lit::SelfId(word.at()))
    }

    /// The number behind an `@`, and the offset of the `@`.
    #[tactic(auto, unfolding(text_grammar::specs::Reading::read, crate::specs::Grammar::id_form))]
    pub(crate) fn written_id(&self, cursor: &mut Cursor<'_>) -> Result<(u32, WrittenId), Stop>
        ensures { Reads (made (λ v. (v.0.at, v.1))
            (reading self.now.levels form.id_form cursor.old)) result cursor.new }
    {
        let sign = cursor.sign(TokenKind::At)?;
        let token = cursor.sign(TokenKind::Number)?;
        let id = WrittenId {
            number: token.number(),
            at: token.at(),
        };
        Ok((sign.at(), id))
    }

    /// `true` or `false`.
    #[tactic(auto, unfolding(text_grammar::specs::Reading::read, crate::specs::Grammar::flag))]
    pub(crate) fn flag(&self, cursor: &mut Cursor<'_>) -> Result<Lit, Stop>
        ensures { Reads (reading self.now.levels form.flag cursor.old) result cursor.new }
    {
        if cursor.sees_word(TokenKind::Lower, b"true") {
            let word = cursor.word(TokenKind::Lower, b"true")?;
            return Ok(Lit::Flag(true, word.at()));
        }
        let word = cursor.word(TokenKind::Lower, b"false")?;
        Ok(Lit::Flag(false, word.at()))
    }

    /// A number, maybe behind a minus.
    #[tactic(auto, unfolding(text_grammar::specs::Reading::read, crate::specs::Grammar::number))]
    pub(crate) fn number(&self, cursor: &mut Cursor<'_>) -> Result<Lit, Stop>
        ensures { Reads (reading self.now.levels form.number cursor.old) result cursor.new }
    {
        if cursor.sees_plain() {
            let token = cursor.plain()?;
            return Ok(Lit::Num(token.number() as i64, token.at()));
        }
        let sign = cursor.sign(TokenKind::Minus)?;
        let token = cursor.negated()?;
        Ok(Lit::Num(minus(token.number()), sign.at()))
    }

    /// A text in quotes.
    #[tactic(auto, unfolding(text_grammar::specs::Reading::read, crate::specs::Grammar::text))]
    pub(crate) fn text(&self, cursor: &mut Cursor<'_>) -> Result<Lit, Stop>
        ensures { Reads (reading self.now.levels form.text cursor.old) result cursor.new }
    {
        let token = cursor.literal()?;
        let text = token.text(self.alloc)?;
        Ok(Lit::Str(text, token.at()))
    }

    /// An id.
    #[tactic(auto, unfolding(text_grammar::specs::Reading::read, crate::specs::Grammar::id))]
    pub(crate) fn id(&self, cursor: &mut Cursor<'_>) -> Result<Lit, Stop>
        ensures { Reads (reading self.now.levels form.id cursor.old) result cursor.new }
    {
        let (at, id) = self.written_id(cursor)?;
        Ok(Lit::Id(id, at))
    }

    /// The name of a model.
    #[tactic(auto, unfolding(text_grammar::specs::Reading::read, crate::specs::Grammar::model_form))]
    pub(crate) fn model(&self, cursor: &mut Cursor<'_>) -> Result<Named, Stop>
        ensures { Reads (reading self.now.levels form.model_form cursor.old) result cursor.new }
    {
        Ok(cursor.upper()?.named(self.alloc)?)
    }

    /// The name of a field.
    #[tactic(auto, unfolding(text_grammar::specs::Reading::read, crate::specs::Grammar::name_form))]
    pub(crate) fn name(&self, cursor: &mut Cursor<'_>) -> Result<Named, Stop>
        ensures { Reads (reading self.now.levels form.name_form cursor.old) result cursor.new }
    {
        Ok(cursor.lower()?.named(self.alloc)?)
    }

    /// A record.
    #[tactic(auto, using(text_syntax::proofs::Folds::made_made), unfolding(text_grammar::specs::Reading::read, crate::specs::Grammar::spot_form))]
    pub(crate) fn spot(&self, cursor: &mut Cursor<'_>) -> Result<Spot, Stop>
        ensures { Reads (reading self.now.levels form.spot_form cursor.old) result cursor.new }
    {
        let model = self.model(cursor)?;
        let (_, id) = self.written_id(cursor)?;
        Ok(Spot { model, id })
    }

    /// The first word of a request, and the name of its session.
    #[tactic(auto, unfolding(text_grammar::specs::Reading::read, crate::specs::Grammar::head_form))]
    pub(crate) fn head(&self, cursor: &mut Cursor<'_>, word: &[u8]) -> Result<Head, Stop>
        ensures { Reads (reading self.now.levels (form.head_form word.now) cursor.old)
            result cursor.new }
    {
        let first = cursor.word(TokenKind::Lower, word)?;
        let session = cursor.lower()?.named(self.alloc)?;
        Ok(Head {
            session,
            at: first.at(),
        })
    }

    /// A record of the model of this name.
    #[tactic(auto, using(text_syntax::proofs::Folds::made_made), unfolding(text_grammar::specs::Reading::read, crate::specs::Grammar::record_form))]
    fn record_of(&self, cursor: &mut Cursor<'_>, name: Named) -> Result<Who, Stop>
        ensures { Reads
            (made (applied name) (reading self.now.levels form.record_form cursor.old))
            result cursor.new }
    {
        let (_, id) = self.written_id(cursor)?;
        Ok(Who::Record(name, id))
    }

    /// A principal of this name.
    #[tactic(auto, unfolding(text_grammar::specs::Reading::read, crate::specs::Grammar::whose_form))]
    fn whose(&self, cursor: &mut Cursor<'_>, name: Named) -> Result<Who, Stop>
        ensures { Reads
            (made (applied name) (reading self.now.levels form.whose_form cursor.old))
            result cursor.new }
    {
        if begins_record(cursor) {
            return self.record_of(cursor, name);
        }
        Ok(Who::Static(name))
    }

    /// A principal.
    #[tactic(auto, unfolding(text_grammar::specs::Reading::read, crate::specs::Grammar::who_form))]
    pub(crate) fn who(&self, cursor: &mut Cursor<'_>) -> Result<Who, Stop>
        ensures { Reads (reading self.now.levels form.who_form cursor.old) result cursor.new }
    {
        let name = self.model(cursor)?;
        self.whose(cursor, name)
    }
}
