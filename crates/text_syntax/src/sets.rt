//! Sets.

ghost use Rattle.std.specs.List.{fold};
ghost use Rattle.text_tree.specs.ExprGrammar as form;
ghost use Rattle.text_tree.specs.ExprGrammar.{Expression, Set};
ghost use Rattle.text_tree.specs.Forms.{each, AnyNumber, part};
ghost use Rattle.text_grammar.specs.Reading.{made};
ghost use Rattle.text_syntax.specs.Nests.{Nests};
ghost use Rattle.text_syntax.specs.Parts.{applied, less_form, paren_form, sum_form};
ghost use Rattle.text_syntax.specs.Reads.{Reads, reading};

use crate::cursor::Cursor;
use crate::grammar::Grammar;
use crate::pieces::Word;
use crate::stop::Stop;
use sqlite_items::Boxed;
use std::alloc::Global;
use text_lexer::TokenKind;
use text_tree::{Expr, SetExpr};

impl<
    E: Fn(Global, &mut Cursor<'_>, u32) -> Result<Boxed<Expr>, Stop>,
    S: Fn(Global, &mut Cursor<'_>, u32) -> Result<Boxed<SetExpr>, Stop>,
> Grammar<E, S> {
    /// A variable and an expression, in parentheses.
    #[tactic(auto, unfolding(text_grammar::specs::Reading::read))]
    fn lambda_expr<'a>(&self, cursor: &mut Cursor<'a>) -> Result<(Word<'a>, Boxed<Expr>), Stop>
        requires { Nests self.now.levels
            (E.pre self.now.expr) (E.post self.now.expr) (S.pre self.now.set)
            (S.post self.now.set) }
        ensures { Reads
            (reading self.now.levels
            (form.parens (form.lambda (part Expression))) cursor.old) result cursor.new }
    {
        cursor.sign(TokenKind::ParenOpen)?;
        let word = cursor.lower()?;
        cursor.sign(TokenKind::Arrow)?;
        let each = self.inner_expr(cursor)?;
        cursor.sign(TokenKind::ParenClose)?;
        Ok((word, each))
    }

    /// A variable and a set, in parentheses.
    #[tactic(auto, unfolding(text_grammar::specs::Reading::read))]
    fn lambda_set<'a>(&self, cursor: &mut Cursor<'a>) -> Result<(Word<'a>, Boxed<SetExpr>), Stop>
        requires { Nests self.now.levels
            (E.pre self.now.expr) (E.post self.now.expr) (S.pre self.now.set)
            (S.post self.now.set) }
        ensures { Reads
            (reading self.now.levels
            (form.parens (form.lambda (part Set))) cursor.old) result cursor.new }
    {
        cursor.sign(TokenKind::ParenOpen)?;
        let word = cursor.lower()?;
        cursor.sign(TokenKind::Arrow)?;
        let each = self.inner_set(cursor)?;
        cursor.sign(TokenKind::ParenClose)?;
        Ok((word, each))
    }

    /// The set of what an expression is at each element of the set before it.
    #[tactic(auto, unfolding(text_grammar::specs::Reading::read, text_tree::specs::ExprGrammar::map_step))]
    pub fn map_step(
        &self,
        cursor: &mut Cursor<'_>,
        of: Boxed<SetExpr>,
    ) -> Result<Boxed<SetExpr>, Stop>
        requires { Nests self.now.levels
            (E.pre self.now.expr) (E.post self.now.expr) (S.pre self.now.set)
            (S.post self.now.set) }
        ensures { Reads
            (made (form.step of)
            (reading self.now.levels form.map_step cursor.old)) result cursor.new }
    {
        cursor.word(TokenKind::Lower, b"map")?;
        let (word, each) = self.lambda_expr(cursor)?;
        let name = word.boxed_name(self.alloc)?;
        let at = of.get().at();
        Ok(Boxed::new(self.alloc, SetExpr::MapS(at, of, name, each))?)
    }

    /// All that a set has at each element of the set before it.
    #[tactic(auto, unfolding(text_grammar::specs::Reading::read, text_tree::specs::ExprGrammar::flat_step))]
    pub fn flat_step(
        &self,
        cursor: &mut Cursor<'_>,
        of: Boxed<SetExpr>,
    ) -> Result<Boxed<SetExpr>, Stop>
        requires { Nests self.now.levels
            (E.pre self.now.expr) (E.post self.now.expr) (S.pre self.now.set)
            (S.post self.now.set) }
        ensures { Reads
            (made (form.step of)
            (reading self.now.levels form.flat_step cursor.old)) result cursor.new }
    {
        cursor.word(TokenKind::Lower, b"flat_map")?;
        let (word, each) = self.lambda_set(cursor)?;
        let name = word.boxed_name(self.alloc)?;
        let at = of.get().at();
        Ok(Boxed::new(self.alloc, SetExpr::FlatS(at, of, name, each))?)
    }

    /// The set before it and one more.
    #[tactic(auto, unfolding(text_grammar::specs::Reading::read))]
    fn add_right(
        &self,
        cursor: &mut Cursor<'_>,
        left: Boxed<SetExpr>,
    ) -> Result<Boxed<SetExpr>, Stop>
        requires { Nests self.now.levels
            (E.pre self.now.expr) (E.post self.now.expr) (S.pre self.now.set)
            (S.post self.now.set) }
        ensures { Reads
            (made (applied left) (reading self.now.levels sum_form cursor.old)) result cursor.new }
    {
        cursor.sign(TokenKind::Plus)?;
        let right = self.set_term(cursor)?;
        let at = left.get().at();
        Ok(Boxed::new(self.alloc, SetExpr::Sum(at, left, right))?)
    }

    /// The set before it without one more.
    #[tactic(auto, unfolding(text_grammar::specs::Reading::read))]
    fn less_right(
        &self,
        cursor: &mut Cursor<'_>,
        left: Boxed<SetExpr>,
    ) -> Result<Boxed<SetExpr>, Stop>
        requires { Nests self.now.levels
            (E.pre self.now.expr) (E.post self.now.expr) (S.pre self.now.set)
            (S.post self.now.set) }
        ensures { Reads
            (made (applied left) (reading self.now.levels less_form cursor.old)) result cursor.new }
    {
        cursor.sign(TokenKind::Minus)?;
        let right = self.set_term(cursor)?;
        let at = left.get().at();
        Ok(Boxed::new(self.alloc, SetExpr::Less(at, left, right))?)
    }

    /// What is added to a set or taken away.
    #[tactic(auto, unfolding(text_grammar::specs::Reading::read, text_tree::specs::ExprGrammar::set_step))]
    fn set_step(&self, cursor: &mut Cursor<'_>, of: Boxed<SetExpr>) -> Result<Boxed<SetExpr>, Stop>
        requires { Nests self.now.levels
            (E.pre self.now.expr) (E.post self.now.expr) (S.pre self.now.set)
            (S.post self.now.set) }
        ensures { Reads
            (made (form.step of)
            (reading self.now.levels form.set_step cursor.old)) result cursor.new }
    {
        if cursor.sees(TokenKind::Plus) {
            return self.add_right(cursor, of);
        }
        self.less_right(cursor, of)
    }

    /// All that is.
    #[tactic(auto, unfolding(text_grammar::specs::Reading::read))]
    fn set_steps(&self, cursor: &mut Cursor<'_>, of: Boxed<SetExpr>) -> Result<Boxed<SetExpr>, Stop>
        requires { Nests self.now.levels
            (E.pre self.now.expr) (E.post self.now.expr) (S.pre self.now.set)
            (S.post self.now.set) }
        ensures { Reads
            (made (fold form.step of)
            (reading self.now.levels (each AnyNumber form.set_step) cursor.old)) result cursor.new }
    {
        let mut of = of;
        for _turn in 0..cursor.len() {
            if !cursor.begins_step() {
                return Ok(of);
            }
            of = self.set_step(cursor, of)?;
        }
        cursor.unless_step(of)
    }

    /// Sets with `+` and `-` between.
    #[tactic(auto, using(crate::proofs::Folds::made_made), unfolding(text_grammar::specs::Reading::read, text_tree::specs::ExprGrammar::sum))]
    fn sum(&self, cursor: &mut Cursor<'_>) -> Result<Boxed<SetExpr>, Stop>
        requires { Nests self.now.levels
            (E.pre self.now.expr) (E.post self.now.expr) (S.pre self.now.set)
            (S.post self.now.set) }
        ensures { Reads (reading self.now.levels form.sum cursor.old) result cursor.new }
    {
        let first = self.set_term(cursor)?;
        self.set_steps(cursor, first)
    }

    /// A set in parentheses.
    #[tactic(auto, unfolding(text_grammar::specs::Reading::read))]
    fn parenthesized(&self, cursor: &mut Cursor<'_>) -> Result<Boxed<SetExpr>, Stop>
        requires { Nests self.now.levels
            (E.pre self.now.expr) (E.post self.now.expr) (S.pre self.now.set)
            (S.post self.now.set) }
        ensures { Reads (reading self.now.levels paren_form cursor.old) result cursor.new }
    {
        let open = cursor.sign(TokenKind::ParenOpen)?;
        let set = self.inner_set(cursor)?;
        cursor.sign(TokenKind::ParenClose)?;
        Ok(Boxed::new(self.alloc, set.into_inner().placed(open.at()))?)
    }

    /// A set that no `+` or `-` goes through.
    #[tactic(auto, unfolding(text_grammar::specs::Reading::read, text_tree::specs::ExprGrammar::set_term))]
    fn set_term(&self, cursor: &mut Cursor<'_>) -> Result<Boxed<SetExpr>, Stop>
        requires { Nests self.now.levels
            (E.pre self.now.expr) (E.post self.now.expr) (S.pre self.now.set)
            (S.post self.now.set) }
        ensures { Reads (reading self.now.levels form.set_term cursor.old) result cursor.new }
    {
        if cursor.sees_word(TokenKind::Lower, b"public") {
            let word = cursor.word(TokenKind::Lower, b"public")?;
            let set = SetExpr::Everyone(word.at(), word.at());
            return Ok(Boxed::new(self.alloc, set)?);
        }
        if cursor.sees_word(TokenKind::Lower, b"none") {
            let word = cursor.word(TokenKind::Lower, b"none")?;
            return Ok(Boxed::new(self.alloc, SetExpr::Nobody(word.at()))?);
        }
        if cursor.begins_list() {
            return self.list(cursor);
        }
        if cursor.sees(TokenKind::ParenOpen) {
            return self.parenthesized(cursor);
        }
        if cursor.begins_found() {
            return self.found(cursor);
        }
        self.path_chain(cursor)
    }

    /// What `then` and `else` say.
    #[tactic(auto, unfolding(text_grammar::specs::Reading::read))]
    fn set_branches(
        &self,
        cursor: &mut Cursor<'_>,
    ) -> Result<(Boxed<SetExpr>, Boxed<SetExpr>), Stop>
        requires { Nests self.now.levels
            (E.pre self.now.expr) (E.post self.now.expr) (S.pre self.now.set)
            (S.post self.now.set) }
        ensures { Reads
            (reading self.now.levels (form.branches (part Set)) cursor.old) result cursor.new }
    {
        cursor.word(TokenKind::Lower, b"then")?;
        let one = self.inner_set(cursor)?;
        cursor.word(TokenKind::Lower, b"else")?;
        let other = self.inner_set(cursor)?;
        Ok((one, other))
    }

    /// A set by a test.
    #[tactic(auto, unfolding(text_grammar::specs::Reading::read, text_tree::specs::ExprGrammar::if_set))]
    fn if_set(&self, cursor: &mut Cursor<'_>) -> Result<Boxed<SetExpr>, Stop>
        requires { Nests self.now.levels
            (E.pre self.now.expr) (E.post self.now.expr) (S.pre self.now.set)
            (S.post self.now.set) }
        ensures { Reads (reading self.now.levels form.if_set cursor.old) result cursor.new }
    {
        let (word, test) = self.condition(cursor)?;
        let (one, other) = self.set_branches(cursor)?;
        let choice = SetExpr::IfS(word.at(), test, one, other);
        Ok(Boxed::new(self.alloc, choice)?)
    }

    /// The branch for none.
    #[tactic(auto, unfolding(text_grammar::specs::Reading::read))]
    fn none_set(&self, cursor: &mut Cursor<'_>) -> Result<Boxed<SetExpr>, Stop>
        requires { Nests self.now.levels
            (E.pre self.now.expr) (E.post self.now.expr) (S.pre self.now.set)
            (S.post self.now.set) }
        ensures { Reads
            (reading self.now.levels (form.none_branch (part Set)) cursor.old) result cursor.new }
    {
        cursor.word(TokenKind::Lower, b"none")?;
        cursor.sign(TokenKind::Arrow)?;
        self.inner_set(cursor)
    }

    /// The branch for some, with its variable.
    #[tactic(auto, unfolding(text_grammar::specs::Reading::read))]
    fn some_set<'a>(&self, cursor: &mut Cursor<'a>) -> Result<(Word<'a>, Boxed<SetExpr>), Stop>
        requires { Nests self.now.levels
            (E.pre self.now.expr) (E.post self.now.expr) (S.pre self.now.set)
            (S.post self.now.set) }
        ensures { Reads
            (reading self.now.levels (form.some_branch (part Set)) cursor.old) result cursor.new }
    {
        cursor.sign(TokenKind::Bar)?;
        cursor.word(TokenKind::Lower, b"some")?;
        let word = cursor.lower()?;
        cursor.sign(TokenKind::Arrow)?;
        let some = self.inner_set(cursor)?;
        Ok((word, some))
    }

    /// A set by whether there is some.
    #[tactic(auto, unfolding(text_grammar::specs::Reading::read, text_tree::specs::ExprGrammar::match_set))]
    fn match_set(&self, cursor: &mut Cursor<'_>) -> Result<Boxed<SetExpr>, Stop>
        requires { Nests self.now.levels
            (E.pre self.now.expr) (E.post self.now.expr) (S.pre self.now.set)
            (S.post self.now.set) }
        ensures { Reads (reading self.now.levels form.match_set cursor.old) result cursor.new }
    {
        let (word, of) = self.scrutinee(cursor)?;
        let none = self.none_set(cursor)?;
        let (variable, some) = self.some_set(cursor)?;
        let name = variable.boxed_name(self.alloc)?;
        let choice = SetExpr::MatchS(word.at(), of, none, name, some);
        Ok(Boxed::new(self.alloc, choice)?)
    }

    /// A set.
    #[tactic(auto, unfolding(text_grammar::specs::Reading::read, text_tree::specs::ExprGrammar::set))]
    pub fn set(&self, cursor: &mut Cursor<'_>) -> Result<Boxed<SetExpr>, Stop>
        requires { Nests self.now.levels
            (E.pre self.now.expr) (E.post self.now.expr) (S.pre self.now.set)
            (S.post self.now.set) }
        ensures { Reads (reading self.now.levels form.set cursor.old) result cursor.new }
    {
        if cursor.begins_if_set() {
            return self.if_set(cursor);
        }
        if cursor.begins_match_set() {
            return self.match_set(cursor);
        }
        self.sum(cursor)
    }
}
