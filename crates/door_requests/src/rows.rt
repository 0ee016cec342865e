//! New rows, and the conditions of `find`.

ghost use Rattle.std.specs.List.{fold};
ghost use Rattle.std.specs.Prelude.{◌≡◌};
ghost use Rattle.door_requests.specs.Grammar as form;
ghost use Rattle.door_requests.specs.Grammar.{◌⨾◌, listed};
ghost use Rattle.text_grammar.specs.Reading.{made, starts};
ghost use Rattle.text_syntax.specs.Parts.{pushed};
ghost use Rattle.text_syntax.specs.Reads.{Reads};
ghost use Rattle.text_tree.specs.Forms.{AnyNumber, each, first};
ghost use Rattle.door_requests.specs.Reads.{behind_comma, cons_pair, reading};
ghost use Rattle.door_requests.specs.Texts.{first_of};

use crate::place::Place;
use crate::requests::Condition;
use crate::values::Values;
use data_tree::FieldLit;
use sqlite_items::Items;
use text_lexer::TokenKind;
use text_syntax::{Cursor, Stop};
use text_tree::{CmpOp, FilterOp};

impl Values {
    /// A field of a new row.
    #[tactic(auto, unfolding(text_grammar::specs::Reading::read, crate::specs::Grammar::field_form))]
    fn field(&self, cursor: &mut Cursor<'_>) -> Result<FieldLit, Stop>
        requires { self.now.place ≡ Place.NewRow }
        ensures { Reads (reading self.now.levels form.field_form cursor.old) result cursor.new }
    {
        let name = cursor.lower()?.named(self.alloc)?;
        cursor.sign(TokenKind::Colon)?;
        let value = self.value(cursor)?;
        Ok(FieldLit { name, value })
    }

    /// One more after a comma.
    #[tactic(auto, unfolding(text_grammar::specs::Reading::read))]
    fn more_field(
        &self,
        cursor: &mut Cursor<'_>,
        found: Items<FieldLit>,
    ) -> Result<Items<FieldLit>, Stop>
        requires { self.now.place ≡ Place.NewRow }
        ensures { Reads
            (made (pushed found)
            (reading self.now.levels (behind_comma form.field_form) cursor.old)) result cursor.new }
    {
        let mut found = found;
        cursor.sign(TokenKind::Comma)?;
        let last = self.field(cursor)?;
        found.push(last)?;
        Ok(found)
    }

    /// As many more as follow.
    #[tactic(auto, unfolding(text_grammar::specs::Reading::read))]
    fn more_fields(
        &self,
        cursor: &mut Cursor<'_>,
        found: Items<FieldLit>,
    ) -> Result<Items<FieldLit>, Stop>
        requires { self.now.place ≡ Place.NewRow }
        ensures { Reads
            (made (fold pushed found)
            (reading self.now.levels
            (each AnyNumber (behind_comma form.field_form)) cursor.old)) result cursor.new }
    {
        let mut found = found;
        for _turn in 0..cursor.len() {
            if !cursor.sees(TokenKind::Comma) {
                return Ok(found);
            }
            found = self.more_field(cursor, found)?;
        }
        cursor.unless(TokenKind::Comma, found)
    }

    /// One or more, with commas between.
    #[tactic(auto, using(text_syntax::proofs::Folds::cons_folded), unfolding(text_grammar::specs::Reading::read))]
    fn some_fields(&self, cursor: &mut Cursor<'_>) -> Result<Items<FieldLit>, Stop>
        requires { self.now.place ≡ Place.NewRow }
        ensures { Reads
            (made cons_pair
            (reading self.now.levels
            (form.field_form ⨾ each AnyNumber
            (behind_comma form.field_form)) cursor.old)) result cursor.new }
    {
        let first = self.field(cursor)?;
        let mut found = Items::new(self.alloc);
        found.push(first)?;
        self.more_fields(cursor, found)
    }

    /// Any number of fields, with commas between.
    #[tactic(auto, unfolding(text_grammar::specs::Reading::read, crate::specs::Grammar::field_form))]
    fn fields(&self, cursor: &mut Cursor<'_>) -> Result<Items<FieldLit>, Stop>
        requires { self.now.place ≡ Place.NewRow }
        ensures { Reads
            (reading self.now.levels (listed form.field_form) cursor.old) result cursor.new }
    {
        if cursor.sees_lower() {
            return self.some_fields(cursor);
        }
        Ok(Items::new(self.alloc))
    }

    /// A sign of comparison or `has`.
    #[tactic(auto, unfolding(text_grammar::specs::Reading::read, crate::specs::Grammar::op_form))]
    fn op(&self, cursor: &mut Cursor<'_>) -> Result<FilterOp, Stop>
        ensures { Reads (reading self.now.levels form.op_form cursor.old) result cursor.new }
    {
        if cursor.take(TokenKind::Colon) {
            return Ok(FilterOp::Cmp(CmpOp::Eq));
        }
        if cursor.sees_word(TokenKind::Lower, b"has") {
            cursor.word(TokenKind::Lower, b"has")?;
            return Ok(FilterOp::Has);
        }
        if cursor.take(TokenKind::EqEq) {
            return Ok(FilterOp::Cmp(CmpOp::Eq));
        }
        if cursor.take(TokenKind::NotEq) {
            return Ok(FilterOp::Cmp(CmpOp::Ne));
        }
        self.order(cursor)
    }

    /// A sign of order.
    #[tactic(auto, unfolding(text_grammar::specs::Reading::read, crate::specs::Grammar::order_form))]
    fn order(&self, cursor: &mut Cursor<'_>) -> Result<FilterOp, Stop>
        ensures { Reads (reading self.now.levels form.order_form cursor.old) result cursor.new }
    {
        if cursor.take(TokenKind::Less) {
            return Ok(FilterOp::Cmp(CmpOp::Lt));
        }
        if cursor.take(TokenKind::LessEq) {
            return Ok(FilterOp::Cmp(CmpOp::Le));
        }
        if cursor.take(TokenKind::Greater) {
            return Ok(FilterOp::Cmp(CmpOp::Gt));
        }
        cursor.sign(TokenKind::GreaterEq)?;
        Ok(FilterOp::Cmp(CmpOp::Ge))
    }

    /// A condition.
    #[tactic(auto, unfolding(text_grammar::specs::Reading::read, crate::specs::Grammar::condition_form))]
    fn condition(&self, cursor: &mut Cursor<'_>) -> Result<Condition, Stop>
        requires { self.now.place ≡ Place.Plain }
        ensures { Reads (reading self.now.levels form.condition_form cursor.old) result cursor.new }
    {
        let field = cursor.lower()?.named(self.alloc)?;
        let op = self.op(cursor)?;
        let value = self.value(cursor)?;
        Ok(Condition { field, op, value })
    }

    /// One more after a comma.
    #[tactic(auto, unfolding(text_grammar::specs::Reading::read))]
    fn more_condition(
        &self,
        cursor: &mut Cursor<'_>,
        found: Items<Condition>,
    ) -> Result<Items<Condition>, Stop>
        requires { self.now.place ≡ Place.Plain }
        ensures { Reads
            (made (pushed found)
            (reading self.now.levels (behind_comma form.condition_form) cursor.old)) result cursor.new }
    {
        let mut found = found;
        cursor.sign(TokenKind::Comma)?;
        let last = self.condition(cursor)?;
        found.push(last)?;
        Ok(found)
    }

    /// As many more as follow.
    #[tactic(auto, unfolding(text_grammar::specs::Reading::read))]
    fn more_conditions(
        &self,
        cursor: &mut Cursor<'_>,
        found: Items<Condition>,
    ) -> Result<Items<Condition>, Stop>
        requires { self.now.place ≡ Place.Plain }
        ensures { Reads
            (made (fold pushed found)
            (reading self.now.levels
            (each AnyNumber (behind_comma form.condition_form)) cursor.old)) result cursor.new }
    {
        let mut found = found;
        for _turn in 0..cursor.len() {
            if !cursor.sees(TokenKind::Comma) {
                return Ok(found);
            }
            found = self.more_condition(cursor, found)?;
        }
        cursor.unless(TokenKind::Comma, found)
    }

    /// One or more, with commas between.
    #[tactic(auto, using(text_syntax::proofs::Folds::cons_folded), unfolding(text_grammar::specs::Reading::read))]
    fn some_conditions(&self, cursor: &mut Cursor<'_>) -> Result<Items<Condition>, Stop>
        requires { self.now.place ≡ Place.Plain }
        ensures { Reads
            (made cons_pair
            (reading self.now.levels
            (form.condition_form ⨾ each AnyNumber
            (behind_comma form.condition_form)) cursor.old)) result cursor.new }
    {
        let first = self.condition(cursor)?;
        let mut found = Items::new(self.alloc);
        found.push(first)?;
        self.more_conditions(cursor, found)
    }

    /// Any number of conditions, with commas between.
    #[tactic(auto, unfolding(text_grammar::specs::Reading::read, crate::specs::Grammar::condition_form))]
    fn conditions(&self, cursor: &mut Cursor<'_>) -> Result<Items<Condition>, Stop>
        requires { self.now.place ≡ Place.Plain }
        ensures { Reads
            (reading self.now.levels (listed form.condition_form) cursor.old) result cursor.new }
    {
        if cursor.sees_lower() {
            return self.some_conditions(cursor);
        }
        Ok(Items::new(self.alloc))
    }

    /// The conditions of `find`, in braces.
    #[tactic(auto, unfolding(text_grammar::specs::Reading::read, crate::specs::Grammar::conditions_form))]
    pub(crate) fn braced_conditions(
        &self,
        cursor: &mut Cursor<'_>,
    ) -> Result<Items<Condition>, Stop>
        requires { self.now.place ≡ Place.Plain }
        ensures { Reads (reading self.now.levels form.conditions_form cursor.old)
            result cursor.new }
    {
        cursor.sign(TokenKind::BraceOpen)?;
        let found = self.conditions(cursor)?;
        cursor.sign(TokenKind::BraceClose)?;
        Ok(found)
    }

    /// A new row, in braces.
    #[tactic(auto, unfolding(text_grammar::specs::Reading::read, crate::specs::Grammar::row_form))]
    pub(crate) fn row(&self, cursor: &mut Cursor<'_>) -> Result<Items<FieldLit>, Stop>
        requires { self.now.place ≡ Place.NewRow }
        ensures { Reads (reading self.now.levels form.row_form cursor.old) result cursor.new }
    {
        cursor.sign(TokenKind::BraceOpen)?;
        let found = self.fields(cursor)?;
        cursor.sign(TokenKind::BraceClose)?;
        Ok(found)
    }
}
