//! Lists, and records that are looked for.

ghost use Rattle.std.specs.List.{fold};
ghost use Rattle.text_tree.specs.ExprGrammar as form;
ghost use Rattle.text_tree.specs.ExprGrammar.{◌⨾◌, listed};
ghost use Rattle.text_tree.specs.Forms.{each, AnyNumber};
ghost use Rattle.text_grammar.specs.Reading.{made};
ghost use Rattle.text_syntax.specs.Nests.{Nests};
ghost use Rattle.text_syntax.specs.Parts.{behind_comma, cons_pair, pushed};
ghost use Rattle.text_syntax.specs.Reads.{Reads, reading};

use crate::cursor::Cursor;
use crate::grammar::Grammar;
use crate::stop::Stop;
use sqlite_items::{Boxed, Items};
use std::alloc::Global;
use text_lexer::TokenKind;
use text_tree::{CmpOp, Expr, Filter, FilterOp, Item, SetExpr};

impl<
    E: Fn(Global, &mut Cursor<'_>, u32) -> Result<Boxed<Expr>, Stop>,
    S: Fn(Global, &mut Cursor<'_>, u32) -> Result<Boxed<SetExpr>, Stop>,
> Grammar<E, S> {
    /// A static or an expression.
    #[tactic(auto, unfolding(text_grammar::specs::Reading::read, text_tree::specs::ExprGrammar::item_form))]
    fn item(&self, cursor: &mut Cursor<'_>) -> Result<Item, Stop>
        requires { Nests self.now.levels
            (E.pre self.now.expr) (E.post self.now.expr) (S.pre self.now.set)
            (S.post self.now.set) }
        ensures { Reads (reading self.now.levels form.item_form cursor.old) result cursor.new }
    {
        if cursor.sees_upper() {
            let word = cursor.upper()?;
            return Ok(Item::Static(word.named(self.alloc)?));
        }
        Ok(Item::One(self.inner_expr(cursor)?.into_inner()))
    }

    /// One more after a comma.
    #[tactic(auto, unfolding(text_grammar::specs::Reading::read))]
    fn more_item(&self, cursor: &mut Cursor<'_>, found: Items<Item>) -> Result<Items<Item>, Stop>
        requires { Nests self.now.levels
            (E.pre self.now.expr) (E.post self.now.expr) (S.pre self.now.set)
            (S.post self.now.set) }
        ensures { Reads
            (made (pushed found)
            (reading self.now.levels (behind_comma form.item_form) cursor.old)) result cursor.new }
    {
        let mut found = found;
        cursor.sign(TokenKind::Comma)?;
        let last = self.item(cursor)?;
        found.push(last)?;
        Ok(found)
    }

    /// As many more as follow.
    #[tactic(auto, unfolding(text_grammar::specs::Reading::read))]
    fn more_items(&self, cursor: &mut Cursor<'_>, found: Items<Item>) -> Result<Items<Item>, Stop>
        requires { Nests self.now.levels
            (E.pre self.now.expr) (E.post self.now.expr) (S.pre self.now.set)
            (S.post self.now.set) }
        ensures { Reads
            (made (fold pushed found)
            (reading self.now.levels
            (each AnyNumber (behind_comma form.item_form)) cursor.old)) result cursor.new }
    {
        let mut found = found;
        for _turn in 0..cursor.len() {
            if !cursor.sees(TokenKind::Comma) {
                return Ok(found);
            }
            found = self.more_item(cursor, found)?;
        }
        cursor.unless(TokenKind::Comma, found)
    }

    /// One or more, with commas between.
    #[tactic(auto, using(crate::proofs::Folds::cons_folded), unfolding(text_grammar::specs::Reading::read))]
    fn some_items(&self, cursor: &mut Cursor<'_>) -> Result<Items<Item>, Stop>
        requires { Nests self.now.levels
            (E.pre self.now.expr) (E.post self.now.expr) (S.pre self.now.set)
            (S.post self.now.set) }
        ensures { Reads
            (made cons_pair
            (reading self.now.levels
            (form.item_form ⨾ each AnyNumber
            (behind_comma form.item_form)) cursor.old)) result cursor.new }
    {
        let first = self.item(cursor)?;
        let mut found = Items::from_vec(Vec::with_capacity(self.alloc, 1)?);
        found.push(first)?;
        self.more_items(cursor, found)
    }

    /// Any number, with commas between.
    #[tactic(auto, unfolding(text_grammar::specs::Reading::read))]
    fn items(&self, cursor: &mut Cursor<'_>) -> Result<Items<Item>, Stop>
        requires { Nests self.now.levels
            (E.pre self.now.expr) (E.post self.now.expr) (S.pre self.now.set)
            (S.post self.now.set) }
        ensures { Reads
            (reading self.now.levels (listed form.item_form) cursor.old) result cursor.new }
    {
        if cursor.begins_item() {
            return self.some_items(cursor);
        }
        Ok(Items::new(self.alloc))
    }

    /// Items in brackets.
    #[tactic(auto, unfolding(text_grammar::specs::Reading::read, text_tree::specs::ExprGrammar::list))]
    pub fn list(&self, cursor: &mut Cursor<'_>) -> Result<Boxed<SetExpr>, Stop>
        requires { Nests self.now.levels
            (E.pre self.now.expr) (E.post self.now.expr) (S.pre self.now.set)
            (S.post self.now.set) }
        ensures { Reads (reading self.now.levels form.list cursor.old) result cursor.new }
    {
        let open = cursor.sign(TokenKind::BracketOpen)?;
        let items = self.items(cursor)?;
        cursor.sign(TokenKind::BracketClose)?;
        Ok(Boxed::new(self.alloc, SetExpr::List(open.at(), items))?)
    }

    /// The sign of a filter: a colon, `has` or a comparison.
    #[tactic(auto, unfolding(text_grammar::specs::Reading::read, text_tree::specs::ExprGrammar::filter_op))]
    fn filter_op(&self, cursor: &mut Cursor<'_>) -> Result<FilterOp, Stop>
        ensures { Reads (reading self.now.levels form.filter_op cursor.old) result cursor.new }
    {
        if cursor.sees(TokenKind::Colon) {
            cursor.sign(TokenKind::Colon)?;
            return Ok(FilterOp::Cmp(CmpOp::Eq));
        }
        if cursor.sees_word(TokenKind::Lower, b"has") {
            cursor.word(TokenKind::Lower, b"has")?;
            return Ok(FilterOp::Has);
        }
        Ok(FilterOp::Cmp(self.cmp_op(cursor)?))
    }

    /// A field, a sign and a value.
    #[tactic(auto, unfolding(text_grammar::specs::Reading::read, text_tree::specs::ExprGrammar::filter_form))]
    fn filter(&self, cursor: &mut Cursor<'_>) -> Result<Filter, Stop>
        requires { Nests self.now.levels
            (E.pre self.now.expr) (E.post self.now.expr) (S.pre self.now.set)
            (S.post self.now.set) }
        ensures { Reads (reading self.now.levels form.filter_form cursor.old) result cursor.new }
    {
        let word = cursor.lower()?;
        let op = self.filter_op(cursor)?;
        let value = self.inner_expr(cursor)?;
        let field = word.named(self.alloc)?;
        Ok(Filter {
            field,
            op,
            value: value.into_inner(),
        })
    }

    /// One more after a comma.
    #[tactic(auto, unfolding(text_grammar::specs::Reading::read))]
    fn more_filter(
        &self,
        cursor: &mut Cursor<'_>,
        found: Items<Filter>,
    ) -> Result<Items<Filter>, Stop>
        requires { Nests self.now.levels
            (E.pre self.now.expr) (E.post self.now.expr) (S.pre self.now.set)
            (S.post self.now.set) }
        ensures { Reads
            (made (pushed found)
            (reading self.now.levels
            (behind_comma form.filter_form) cursor.old)) result cursor.new }
    {
        let mut found = found;
        cursor.sign(TokenKind::Comma)?;
        let last = self.filter(cursor)?;
        found.push(last)?;
        Ok(found)
    }

    /// As many more as follow.
    #[tactic(auto, unfolding(text_grammar::specs::Reading::read))]
    fn more_filters(
        &self,
        cursor: &mut Cursor<'_>,
        found: Items<Filter>,
    ) -> Result<Items<Filter>, Stop>
        requires { Nests self.now.levels
            (E.pre self.now.expr) (E.post self.now.expr) (S.pre self.now.set)
            (S.post self.now.set) }
        ensures { Reads
            (made (fold pushed found)
            (reading self.now.levels
            (each AnyNumber (behind_comma form.filter_form)) cursor.old)) result cursor.new }
    {
        let mut found = found;
        for _turn in 0..cursor.len() {
            if !cursor.sees(TokenKind::Comma) {
                return Ok(found);
            }
            found = self.more_filter(cursor, found)?;
        }
        cursor.unless(TokenKind::Comma, found)
    }

    /// One or more, with commas between.
    #[tactic(auto, using(crate::proofs::Folds::cons_folded), unfolding(text_grammar::specs::Reading::read))]
    fn some_filters(&self, cursor: &mut Cursor<'_>) -> Result<Items<Filter>, Stop>
        requires { Nests self.now.levels
            (E.pre self.now.expr) (E.post self.now.expr) (S.pre self.now.set)
            (S.post self.now.set) }
        ensures { Reads
            (made cons_pair
            (reading self.now.levels
            (form.filter_form ⨾ each AnyNumber
            (behind_comma form.filter_form)) cursor.old)) result cursor.new }
    {
        let first = self.filter(cursor)?;
        let mut found = Items::from_vec(Vec::with_capacity(self.alloc, 1)?);
        found.push(first)?;
        self.more_filters(cursor, found)
    }

    /// Any number, with commas between.
    #[tactic(auto, unfolding(text_grammar::specs::Reading::read))]
    fn filters(&self, cursor: &mut Cursor<'_>) -> Result<Items<Filter>, Stop>
        requires { Nests self.now.levels
            (E.pre self.now.expr) (E.post self.now.expr) (S.pre self.now.set)
            (S.post self.now.set) }
        ensures { Reads
            (reading self.now.levels (listed form.filter_form) cursor.old) result cursor.new }
    {
        if cursor.sees_lower() {
            return self.some_filters(cursor);
        }
        Ok(Items::new(self.alloc))
    }

    /// The records of a model that meet filters.
    #[tactic(auto, unfolding(text_grammar::specs::Reading::read, text_tree::specs::ExprGrammar::find))]
    pub fn find(&self, cursor: &mut Cursor<'_>) -> Result<Boxed<SetExpr>, Stop>
        requires { Nests self.now.levels
            (E.pre self.now.expr) (E.post self.now.expr) (S.pre self.now.set)
            (S.post self.now.set) }
        ensures { Reads (reading self.now.levels form.find cursor.old) result cursor.new }
    {
        let word = cursor.upper()?;
        cursor.sign(TokenKind::ColonColon)?;
        cursor.word(TokenKind::Upper, b"Find")?;
        let filters = self.find_filters(cursor)?;
        let model = word.boxed_name(self.alloc)?;
        Ok(Boxed::new(self.alloc, SetExpr::Find(word.at(), model, filters))?)
    }

    /// The filters of `Find`, in their parentheses and braces.
    #[tactic(auto, unfolding(text_grammar::specs::Reading::read))]
    fn find_filters(&self, cursor: &mut Cursor<'_>) -> Result<Items<Filter>, Stop>
        requires { Nests self.now.levels
            (E.pre self.now.expr) (E.post self.now.expr) (S.pre self.now.set)
            (S.post self.now.set) }
        ensures { Reads
            (reading self.now.levels
            (form.parens (form.braces (listed form.filter_form))) cursor.old) result cursor.new }
    {
        cursor.sign(TokenKind::ParenOpen)?;
        cursor.sign(TokenKind::BraceOpen)?;
        let filters = self.filters(cursor)?;
        cursor.sign(TokenKind::BraceClose)?;
        cursor.sign(TokenKind::ParenClose)?;
        Ok(filters)
    }
}
