//! Options and lists, whose values nest.

ghost use Rattle.std.specs.List.{fold};
ghost use Rattle.std.specs.Prelude.{◌≡◌, IfOk};
ghost use Rattle.data_tree.specs.Grammar as form;
ghost use Rattle.data_tree.specs.Grammar.{rule, Value, ◌⨾◌, listed};
ghost use Rattle.data_tree.specs.Texts.{first_of};
ghost use Rattle.text_grammar.specs.Reading.{made, read_part};
ghost use Rattle.text_syntax.specs.Parts.{pushed};
ghost use Rattle.text_syntax.specs.Reads.{Reads};
ghost use Rattle.text_tree.specs.Forms.{AnyNumber, each, part};
ghost use Rattle.data_parse.specs.Reads.{behind_comma, cons_pair, reading};

use crate::values::{
    Values, begins_flag, begins_id, begins_number, begins_option, begins_text, begins_value,
    value_stop,
};
use data_tree::Lit;
use sqlite_items::{Boxed, Items};
use std::alloc::{AllocError, Global};
use text_lexer::TokenKind;
use text_syntax::{Cursor, Stop};

/// The same items, with no room for more: a long text may hold a million lists.
fn fitted(alloc: Global, items: Items<Lit>) -> Result<Items<Lit>, AllocError>
    ensures { IfOk result (λ fitted. fitted ≡ items) }
{
    let mut fitted = Items::new(alloc);
    fitted.append(items)?;
    Ok(fitted)
}

impl Values {
    /// A value in which others nest so many levels deep.
    #[cycle(nested)]
    pub(crate) fn value(&self, cursor: &mut Cursor<'_>) -> Result<Lit, Stop>
        ensures { Reads
            (read_part rule first_of self.now.levels Value cursor.old) result cursor.new }
    {
        if self.levels == 0 {
            return Err(value_stop(cursor));
        }
        let inner = Values {
            alloc: self.alloc,
            levels: self.levels - 1,
        };
        inner.any(cursor)
    }

    /// A value, by the token that begins it.
    #[cycle(nested)]
    #[tactic(auto, unfolding(text_grammar::specs::Reading::read, data_tree::specs::Grammar::value))]
    fn any(&self, cursor: &mut Cursor<'_>) -> Result<Lit, Stop>
        ensures { Reads (reading self.now.levels form.value cursor.old) result cursor.new }
    {
        if begins_flag(cursor) {
            return self.flag(cursor);
        }
        if begins_number(cursor) {
            return self.number(cursor);
        }
        if begins_text(cursor) {
            return self.text(cursor);
        }
        if begins_id(cursor) {
            return self.id(cursor);
        }
        if begins_option(cursor) {
            return self.option(cursor);
        }
        self.list(cursor)
    }

    /// `none`, or `some` with a value.
    #[cycle(nested)]
    #[tactic(auto, unfolding(text_grammar::specs::Reading::read, data_tree::specs::Grammar::option))]
    fn option(&self, cursor: &mut Cursor<'_>) -> Result<Lit, Stop>
        ensures { Reads (reading self.now.levels form.option cursor.old) result cursor.new }
    {
        if cursor.sees_word(TokenKind::Lower, b"none") {
            let word = cursor.word(TokenKind::Lower, b"none")?;
            return Ok(Lit::NoneLit(word.at()));
        }
        let word = cursor.word(TokenKind::Lower, b"some")?;
        cursor.sign(TokenKind::ParenOpen)?;
        let inner = self.value(cursor)?;
        cursor.sign(TokenKind::ParenClose)?;
        Ok(Lit::SomeLit(Boxed::new(self.alloc, inner)?, word.at()))
    }

    /// One more after a comma.
    #[cycle(nested)]
    #[tactic(auto, unfolding(text_grammar::specs::Reading::read))]
    fn more_value(&self, cursor: &mut Cursor<'_>, found: Items<Lit>) -> Result<Items<Lit>, Stop>
        ensures { Reads
            (made (pushed found)
            (reading self.now.levels (behind_comma (part Value)) cursor.old)) result cursor.new }
    {
        let mut found = found;
        cursor.sign(TokenKind::Comma)?;
        let last = self.value(cursor)?;
        found.push(last)?;
        Ok(found)
    }

    /// As many more as follow.
    #[cycle(nested)]
    #[tactic(auto, unfolding(text_grammar::specs::Reading::read))]
    fn more_values(&self, cursor: &mut Cursor<'_>, found: Items<Lit>) -> Result<Items<Lit>, Stop>
        ensures { Reads
            (made (fold pushed found)
            (reading self.now.levels
            (each AnyNumber (behind_comma (part Value))) cursor.old)) result cursor.new }
    {
        let mut found = found;
        for _turn in 0..cursor.len() {
            if !cursor.sees(TokenKind::Comma) {
                return Ok(found);
            }
            found = self.more_value(cursor, found)?;
        }
        cursor.unless(TokenKind::Comma, found)
    }

    /// One or more, with commas between.
    #[cycle(nested)]
    #[tactic(auto, using(text_syntax::proofs::Folds::cons_folded), unfolding(text_grammar::specs::Reading::read))]
    fn some_values(&self, cursor: &mut Cursor<'_>) -> Result<Items<Lit>, Stop>
        ensures { Reads
            (made cons_pair
            (reading self.now.levels
            (part Value ⨾ each AnyNumber
            (behind_comma (part Value))) cursor.old)) result cursor.new }
    {
        let first = self.value(cursor)?;
        let mut found = Items::new(self.alloc);
        found.push(first)?;
        self.more_values(cursor, found)
    }

    /// Any number, with commas between.
    #[cycle(nested)]
    #[tactic(auto, unfolding(text_grammar::specs::Reading::read))]
    fn values(&self, cursor: &mut Cursor<'_>) -> Result<Items<Lit>, Stop>
        ensures { Reads
            (reading self.now.levels (listed (part Value)) cursor.old) result cursor.new }
    {
        if begins_value(cursor) {
            return self.some_values(cursor);
        }
        Ok(Items::new(self.alloc))
    }

    /// A list of values.
    #[cycle(nested)]
    #[tactic(auto, unfolding(text_grammar::specs::Reading::read, data_tree::specs::Grammar::list))]
    fn list(&self, cursor: &mut Cursor<'_>) -> Result<Lit, Stop>
        ensures { Reads (reading self.now.levels form.list cursor.old) result cursor.new }
    {
        let open = cursor.sign(TokenKind::BracketOpen)?;
        let items = self.values(cursor)?;
        cursor.sign(TokenKind::BracketClose)?;
        Ok(Lit::List(fitted(self.alloc, items)?, open.at()))
    }
}
