//! Options and lists, whose values nest.

ghost use Rattle.std.specs.List.{fold};
ghost use Rattle.std.specs.Prelude.{◌≡◌, IfOk};
ghost use Rattle.door_requests.specs.Grammar as form;
ghost use Rattle.door_requests.specs.Grammar.{rule, ◌⨾◌, listed};
ghost use Rattle.door_requests.specs.Texts.{first_of};
ghost use Rattle.text_grammar.specs.Reading.{made, read_part};
ghost use Rattle.text_syntax.specs.Parts.{pushed};
ghost use Rattle.text_syntax.specs.Reads.{Reads};
ghost use Rattle.text_tree.specs.Forms.{AnyNumber, each, part};
ghost use Rattle.door_requests.specs.Reads.{behind_comma, cons_pair, reading};

use crate::place::Place;
use crate::values::{Values, begins_flag, begins_id, begins_number, begins_own, begins_text};
use data_tree::Lit;
use sqlite_items::{Boxed, Items};
use std::alloc::{AllocError, Global};
use text_lexer::TokenKind;
use text_syntax::{Cursor, Stop};

impl Values {
    /// A value in which others nest so many levels deep.
    #[cycle(nested)]
    pub(crate) fn value(&self, cursor: &mut Cursor<'_>) -> Result<Lit, Stop>
        ensures { Reads
            (read_part rule first_of self.now.levels self.now.place cursor.old) result cursor.new }
    {
        if self.levels == 0 {
            return Err(self.value_stop(cursor));
        }
        let inner = Values {
            alloc: self.alloc,
            place: self.place,
            levels: self.levels - 1,
        };
        inner.any(cursor)
    }

    /// A value, at its place.
    #[cycle(nested)]
    #[tactic(auto, unfolding(text_grammar::specs::Reading::read))]
    fn any(&self, cursor: &mut Cursor<'_>) -> Result<Lit, Stop>
        ensures { Reads (reading self.now.levels (rule self.now.place) cursor.old)
            result cursor.new }
    {
        match self.place {
            Place::Plain => self.common(cursor),
            Place::NewRow => self.in_row(cursor),
        }
    }

    /// A value in a new row.
    #[cycle(nested)]
    #[tactic(auto, unfolding(text_grammar::specs::Reading::read))]
    fn in_row(&self, cursor: &mut Cursor<'_>) -> Result<Lit, Stop>
        requires { self.now.place ≡ Place.NewRow }
        ensures { Reads (reading self.now.levels (rule Place.NewRow) cursor.old)
            result cursor.new }
    {
        if begins_own(cursor) {
            return self.own(cursor);
        }
        self.common(cursor)
    }

    /// A value other than `self`, by the token that begins it.
    #[cycle(nested)]
    #[tactic(auto, unfolding(text_grammar::specs::Reading::read, crate::specs::Grammar::common))]
    fn common(&self, cursor: &mut Cursor<'_>) -> Result<Lit, Stop>
        ensures { Reads (reading self.now.levels (form.common self.now.place) cursor.old)
            result cursor.new }
    {
        if begins_flag(cursor) {
            return self.flag(cursor);
        }
        if begins_number(cursor) {
            return self.number(cursor);
        }
        if begins_text(cursor) {
            return self.text(cursor);
        }
        if begins_id(cursor) {
            return self.id(cursor);
        }
        if self.begins_option(cursor) {
            return self.option(cursor);
        }
        self.list(cursor)
    }

    /// `none`, or `some` with a value.
    #[cycle(nested)]
    #[tactic(auto, unfolding(text_grammar::specs::Reading::read, crate::specs::Grammar::option))]
    fn option(&self, cursor: &mut Cursor<'_>) -> Result<Lit, Stop>
        ensures { Reads (reading self.now.levels (form.option self.now.place) cursor.old) result cursor.new }
    {
        if cursor.sees_word(TokenKind::Lower, b"none") {
            let word = cursor.word(TokenKind::Lower, b"none")?;
            return Ok(Lit::NoneLit(word.at()));
        }
        let word = cursor.word(TokenKind::Lower, b"some")?;
        cursor.sign(TokenKind::ParenOpen)?;
        let inner = self.value(cursor)?;
        cursor.sign(TokenKind::ParenClose)?;
        Ok(Lit::SomeLit(Boxed::new(self.alloc, inner)?, word.at()))
    }

    /// One more after a comma.
    #[cycle(nested)]
    #[tactic(auto, unfolding(text_grammar::specs::Reading::read))]
    fn more_value(&self, cursor: &mut Cursor<'_>, found: Items<Lit>) -> Result<Items<Lit>, Stop>
        ensures { Reads
            (made (pushed found)
            (reading self.now.levels (behind_comma (part self.now.place)) cursor.old)) result cursor.new }
    {
        let mut found = found;
        cursor.sign(TokenKind::Comma)?;
        let last = self.value(cursor)?;
        found.push(last)?;
        Ok(found)
    }

    /// As many more as follow.
    #[cycle(nested)]
    #[tactic(auto, unfolding(text_grammar::specs::Reading::read))]
    fn more_values(&self, cursor: &mut Cursor<'_>, found: Items<Lit>) -> Result<Items<Lit>, Stop>
        ensures { Reads
            (made (fold pushed found)
            (reading self.now.levels
            (each AnyNumber (behind_comma (part self.now.place))) cursor.old)) result cursor.new }
    {
        let mut found = found;
        for _turn in 0..cursor.len() {
            if !cursor.sees(TokenKind::Comma) {
                return Ok(found);
            }
            found = self.more_value(cursor, found)?;
        }
        cursor.unless(TokenKind::Comma, found)
    }

    /// One or more, with commas between.
    #[cycle(nested)]
    #[tactic(auto, using(text_syntax::proofs::Folds::cons_folded), unfolding(text_grammar::specs::Reading::read))]
    fn some_values(&self, cursor: &mut Cursor<'_>) -> Result<Items<Lit>, Stop>
        ensures { Reads
            (made cons_pair
            (reading self.now.levels
            (part self.now.place ⨾ each AnyNumber
            (behind_comma (part self.now.place))) cursor.old)) result cursor.new }
    {
        let first = self.value(cursor)?;
        let mut found = Items::new(self.alloc);
        found.push(first)?;
        self.more_values(cursor, found)
    }

    /// Any number, with commas between.
    #[cycle(nested)]
    #[tactic(auto, unfolding(text_grammar::specs::Reading::read))]
    fn values(&self, cursor: &mut Cursor<'_>) -> Result<Items<Lit>, Stop>
        ensures { Reads
            (reading self.now.levels (listed (part self.now.place)) cursor.old) result cursor.new }
    {
        if self.begins_value(cursor) {
            return self.some_values(cursor);
        }
        Ok(Items::new(self.alloc))
    }

    /// A list of values.
    #[cycle(nested)]
    #[tactic(auto, unfolding(text_grammar::specs::Reading::read, crate::specs::Grammar::list))]
    fn list(&self, cursor: &mut Cursor<'_>) -> Result<Lit, Stop>
        ensures { Reads (reading self.now.levels (form.list self.now.place) cursor.old) result cursor.new }
    {
        let open = cursor.sign(TokenKind::BracketOpen)?;
        let items = self.values(cursor)?;
        cursor.sign(TokenKind::BracketClose)?;
        Ok(Lit::List(items, open.at()))
    }
}
