//! Expressions.

ghost use Rattle.std.specs.List.{fold};
ghost use Rattle.text_tree.specs.ExprGrammar as form;
ghost use Rattle.text_tree.specs.ExprGrammar.{Expression};
ghost use Rattle.text_tree.specs.Forms.{each, AnyNumber, part};
ghost use Rattle.text_grammar.specs.Reading.{made};
ghost use Rattle.text_syntax.specs.Nests.{Nests};
ghost use Rattle.text_syntax.specs.Parts.{and_form, and_of, applied, compare_form, member_form};
ghost use Rattle.text_syntax.specs.Parts.{or_form, or_of};
ghost use Rattle.text_syntax.specs.Reads.{Reads, reading};

use crate::cursor::Cursor;
use crate::grammar::Grammar;
use crate::pieces::{Piece, Word};
use crate::stop::Stop;
use sqlite_items::Boxed;
use std::alloc::Global;
use text_lexer::TokenKind;
use text_tree::{CmpOp, Expr, SetExpr};

impl<
    E: Fn(Global, &mut Cursor<'_>, u32) -> Result<Boxed<Expr>, Stop>,
    S: Fn(Global, &mut Cursor<'_>, u32) -> Result<Boxed<SetExpr>, Stop>,
> Grammar<E, S> {
    /// An atom, with `!` before it or none.
    #[tactic(auto, unfolding(text_grammar::specs::Reading::read, text_tree::specs::ExprGrammar::unary))]
    fn unary(&self, cursor: &mut Cursor<'_>) -> Result<Boxed<Expr>, Stop>
        requires { Nests self.now.levels
            (E.pre self.now.expr) (E.post self.now.expr) (S.pre self.now.set)
            (S.post self.now.set) }
        ensures { Reads (reading self.now.levels form.unary cursor.old) result cursor.new }
    {
        if !cursor.sees(TokenKind::Not) {
            return self.atom(cursor);
        }
        let not = cursor.sign(TokenKind::Not)?;
        let inner = self.atom(cursor)?;
        Ok(Boxed::new(self.alloc, Expr::Not(not.at(), inner))?)
    }

    /// The sign of a comparison.
    #[tactic(auto, unfolding(text_grammar::specs::Reading::read, text_tree::specs::ExprGrammar::cmp_op))]
    pub fn cmp_op(&self, cursor: &mut Cursor<'_>) -> Result<CmpOp, Stop>
        ensures { Reads (reading self.now.levels form.cmp_op cursor.old) result cursor.new }
    {
        if cursor.sees(TokenKind::EqEq) {
            cursor.sign(TokenKind::EqEq)?;
            return Ok(CmpOp::Eq);
        }
        if cursor.sees(TokenKind::NotEq) {
            cursor.sign(TokenKind::NotEq)?;
            return Ok(CmpOp::Ne);
        }
        if cursor.sees(TokenKind::Less) {
            cursor.sign(TokenKind::Less)?;
            return Ok(CmpOp::Lt);
        }
        if cursor.sees(TokenKind::LessEq) {
            cursor.sign(TokenKind::LessEq)?;
            return Ok(CmpOp::Le);
        }
        if cursor.sees(TokenKind::Greater) {
            cursor.sign(TokenKind::Greater)?;
            return Ok(CmpOp::Gt);
        }
        cursor.sign(TokenKind::GreaterEq)?;
        Ok(CmpOp::Ge)
    }

    /// The set after `in`.
    #[tactic(auto, unfolding(text_grammar::specs::Reading::read, text_tree::specs::ExprGrammar::container))]
    fn container(&self, cursor: &mut Cursor<'_>) -> Result<Boxed<SetExpr>, Stop>
        requires { Nests self.now.levels
            (E.pre self.now.expr) (E.post self.now.expr) (S.pre self.now.set)
            (S.post self.now.set) }
        ensures { Reads (reading self.now.levels form.container cursor.old) result cursor.new }
    {
        if cursor.begins_path() {
            let path = self.path(cursor)?;
            let at = path.get().at();
            let set = SetExpr::Path(at, path.into_inner());
            return Ok(Boxed::new(self.alloc, set)?);
        }
        cursor.sign(TokenKind::BraceOpen)?;
        let set = self.inner_set(cursor)?;
        cursor.sign(TokenKind::BraceClose)?;
        Ok(set)
    }

    /// A comparison of what is read with what comes before it.
    #[tactic(auto, unfolding(text_grammar::specs::Reading::read))]
    fn compare(&self, cursor: &mut Cursor<'_>, left: Boxed<Expr>) -> Result<Boxed<Expr>, Stop>
        requires { Nests self.now.levels
            (E.pre self.now.expr) (E.post self.now.expr) (S.pre self.now.set)
            (S.post self.now.set) }
        ensures { Reads
            (made (applied left)
            (reading self.now.levels compare_form cursor.old)) result cursor.new }
    {
        let op = self.cmp_op(cursor)?;
        let right = self.unary(cursor)?;
        let at = left.get().at();
        Ok(Boxed::new(self.alloc, Expr::Cmp(at, op, left, right))?)
    }

    /// The set that the expression before it is in.
    #[tactic(auto, unfolding(text_grammar::specs::Reading::read))]
    fn member(&self, cursor: &mut Cursor<'_>, of: Boxed<Expr>) -> Result<Boxed<Expr>, Stop>
        requires { Nests self.now.levels
            (E.pre self.now.expr) (E.post self.now.expr) (S.pre self.now.set)
            (S.post self.now.set) }
        ensures { Reads
            (made (applied of) (reading self.now.levels member_form cursor.old)) result cursor.new }
    {
        cursor.word(TokenKind::Lower, b"in")?;
        let set = self.container(cursor)?;
        let at = of.get().at();
        Ok(Boxed::new(self.alloc, Expr::Member(at, of, set))?)
    }

    /// What follows the left side of a comparison, if one follows.
    #[tactic(auto, unfolding(text_grammar::specs::Reading::read, text_tree::specs::ExprGrammar::comparison))]
    fn comparison(&self, cursor: &mut Cursor<'_>, left: Boxed<Expr>) -> Result<Boxed<Expr>, Stop>
        requires { Nests self.now.levels
            (E.pre self.now.expr) (E.post self.now.expr) (S.pre self.now.set)
            (S.post self.now.set) }
        ensures { Reads
            (made (applied left)
            (reading self.now.levels form.comparison cursor.old)) result cursor.new }
    {
        if cursor.begins_cmp() {
            return self.compare(cursor, left);
        }
        if cursor.sees_word(TokenKind::Lower, b"in") {
            return self.member(cursor, left);
        }
        Ok(left)
    }

    /// An expression, and what it is compared with, if it is.
    #[tactic(auto, using(crate::proofs::Folds::made_made), unfolding(text_grammar::specs::Reading::read, text_tree::specs::ExprGrammar::compared))]
    fn compared(&self, cursor: &mut Cursor<'_>) -> Result<Boxed<Expr>, Stop>
        requires { Nests self.now.levels
            (E.pre self.now.expr) (E.post self.now.expr) (S.pre self.now.set)
            (S.post self.now.set) }
        ensures { Reads (reading self.now.levels form.compared cursor.old) result cursor.new }
    {
        let left = self.unary(cursor)?;
        self.comparison(cursor, left)
    }

    /// The expression before it and one more.
    #[tactic(auto, unfolding(text_grammar::specs::Reading::read))]
    fn and_right(&self, cursor: &mut Cursor<'_>, left: Boxed<Expr>) -> Result<Boxed<Expr>, Stop>
        requires { Nests self.now.levels
            (E.pre self.now.expr) (E.post self.now.expr) (S.pre self.now.set)
            (S.post self.now.set) }
        ensures { Reads
            (made (and_of left) (reading self.now.levels and_form cursor.old)) result cursor.new }
    {
        cursor.sign(TokenKind::AndAnd)?;
        let right = self.compared(cursor)?;
        let at = left.get().at();
        Ok(Boxed::new(self.alloc, Expr::And(at, left, right))?)
    }

    /// The expression before it and as many more as follow.
    #[tactic(auto, unfolding(text_grammar::specs::Reading::read))]
    fn ands_right(&self, cursor: &mut Cursor<'_>, left: Boxed<Expr>) -> Result<Boxed<Expr>, Stop>
        requires { Nests self.now.levels
            (E.pre self.now.expr) (E.post self.now.expr) (S.pre self.now.set)
            (S.post self.now.set) }
        ensures { Reads
            (made (fold and_of left)
            (reading self.now.levels (each AnyNumber and_form) cursor.old)) result cursor.new }
    {
        let mut left = left;
        for _turn in 0..cursor.len() {
            if !cursor.sees(TokenKind::AndAnd) {
                return Ok(left);
            }
            left = self.and_right(cursor, left)?;
        }
        cursor.unless(TokenKind::AndAnd, left)
    }

    /// Comparisons with `&&` between.
    #[tactic(auto, using(crate::proofs::Folds::made_made), unfolding(text_grammar::specs::Reading::read, text_tree::specs::ExprGrammar::conjunction))]
    fn conjunction(&self, cursor: &mut Cursor<'_>) -> Result<Boxed<Expr>, Stop>
        requires { Nests self.now.levels
            (E.pre self.now.expr) (E.post self.now.expr) (S.pre self.now.set)
            (S.post self.now.set) }
        ensures { Reads (reading self.now.levels form.conjunction cursor.old) result cursor.new }
    {
        let left = self.compared(cursor)?;
        self.ands_right(cursor, left)
    }

    /// The expression before it and one more.
    #[tactic(auto, unfolding(text_grammar::specs::Reading::read))]
    fn or_right(&self, cursor: &mut Cursor<'_>, left: Boxed<Expr>) -> Result<Boxed<Expr>, Stop>
        requires { Nests self.now.levels
            (E.pre self.now.expr) (E.post self.now.expr) (S.pre self.now.set)
            (S.post self.now.set) }
        ensures { Reads
            (made (or_of left) (reading self.now.levels or_form cursor.old)) result cursor.new }
    {
        cursor.sign(TokenKind::OrOr)?;
        let right = self.conjunction(cursor)?;
        let at = left.get().at();
        Ok(Boxed::new(self.alloc, Expr::Or(at, left, right))?)
    }

    /// The expression before it and as many more as follow.
    #[tactic(auto, unfolding(text_grammar::specs::Reading::read))]
    fn ors_right(&self, cursor: &mut Cursor<'_>, left: Boxed<Expr>) -> Result<Boxed<Expr>, Stop>
        requires { Nests self.now.levels
            (E.pre self.now.expr) (E.post self.now.expr) (S.pre self.now.set)
            (S.post self.now.set) }
        ensures { Reads
            (made (fold or_of left)
            (reading self.now.levels (each AnyNumber or_form) cursor.old)) result cursor.new }
    {
        let mut left = left;
        for _turn in 0..cursor.len() {
            if !cursor.sees(TokenKind::OrOr) {
                return Ok(left);
            }
            left = self.or_right(cursor, left)?;
        }
        cursor.unless(TokenKind::OrOr, left)
    }

    /// Conjunctions with `||` between.
    #[tactic(auto, using(crate::proofs::Folds::made_made), unfolding(text_grammar::specs::Reading::read, text_tree::specs::ExprGrammar::disjunction))]
    fn disjunction(&self, cursor: &mut Cursor<'_>) -> Result<Boxed<Expr>, Stop>
        requires { Nests self.now.levels
            (E.pre self.now.expr) (E.post self.now.expr) (S.pre self.now.set)
            (S.post self.now.set) }
        ensures { Reads (reading self.now.levels form.disjunction cursor.old) result cursor.new }
    {
        let left = self.conjunction(cursor)?;
        self.ors_right(cursor, left)
    }

    /// `if` and its test.
    #[tactic(auto, unfolding(text_grammar::specs::Reading::read, text_tree::specs::ExprGrammar::condition))]
    pub fn condition<'a>(&self, cursor: &mut Cursor<'a>) -> Result<(Piece<'a>, Boxed<Expr>), Stop>
        requires { Nests self.now.levels
            (E.pre self.now.expr) (E.post self.now.expr) (S.pre self.now.set)
            (S.post self.now.set) }
        ensures { Reads (reading self.now.levels form.condition cursor.old) result cursor.new }
    {
        let word = cursor.word(TokenKind::Lower, b"if")?;
        let test = self.inner_expr(cursor)?;
        Ok((word, test))
    }

    /// What `then` and `else` say.
    #[tactic(auto, unfolding(text_grammar::specs::Reading::read))]
    fn branches(&self, cursor: &mut Cursor<'_>) -> Result<(Boxed<Expr>, Boxed<Expr>), Stop>
        requires { Nests self.now.levels
            (E.pre self.now.expr) (E.post self.now.expr) (S.pre self.now.set)
            (S.post self.now.set) }
        ensures { Reads
            (reading self.now.levels
            (form.branches (part Expression)) cursor.old) result cursor.new }
    {
        cursor.word(TokenKind::Lower, b"then")?;
        let one = self.inner_expr(cursor)?;
        cursor.word(TokenKind::Lower, b"else")?;
        let other = self.inner_expr(cursor)?;
        Ok((one, other))
    }

    /// An expression by a test.
    #[tactic(auto, unfolding(text_grammar::specs::Reading::read, text_tree::specs::ExprGrammar::if_expr))]
    fn if_expr(&self, cursor: &mut Cursor<'_>) -> Result<Boxed<Expr>, Stop>
        requires { Nests self.now.levels
            (E.pre self.now.expr) (E.post self.now.expr) (S.pre self.now.set)
            (S.post self.now.set) }
        ensures { Reads (reading self.now.levels form.if_expr cursor.old) result cursor.new }
    {
        let (word, test) = self.condition(cursor)?;
        let (one, other) = self.branches(cursor)?;
        let choice = Expr::IfE(word.at(), test, one, other);
        Ok(Boxed::new(self.alloc, choice)?)
    }

    /// `match` and what is taken apart.
    #[tactic(auto, unfolding(text_grammar::specs::Reading::read, text_tree::specs::ExprGrammar::scrutinee))]
    pub fn scrutinee<'a>(&self, cursor: &mut Cursor<'a>) -> Result<(Piece<'a>, Boxed<Expr>), Stop>
        requires { Nests self.now.levels
            (E.pre self.now.expr) (E.post self.now.expr) (S.pre self.now.set)
            (S.post self.now.set) }
        ensures { Reads (reading self.now.levels form.scrutinee cursor.old) result cursor.new }
    {
        let word = cursor.word(TokenKind::Lower, b"match")?;
        let of = self.inner_expr(cursor)?;
        cursor.word(TokenKind::Lower, b"with")?;
        Ok((word, of))
    }

    /// The branch for none.
    #[tactic(auto, unfolding(text_grammar::specs::Reading::read))]
    fn none_branch(&self, cursor: &mut Cursor<'_>) -> Result<Boxed<Expr>, Stop>
        requires { Nests self.now.levels
            (E.pre self.now.expr) (E.post self.now.expr) (S.pre self.now.set)
            (S.post self.now.set) }
        ensures { Reads
            (reading self.now.levels
            (form.none_branch (part Expression)) cursor.old) result cursor.new }
    {
        cursor.word(TokenKind::Lower, b"none")?;
        cursor.sign(TokenKind::Arrow)?;
        self.inner_expr(cursor)
    }

    /// The branch for some, with its variable.
    #[tactic(auto, unfolding(text_grammar::specs::Reading::read))]
    fn some_branch<'a>(&self, cursor: &mut Cursor<'a>) -> Result<(Word<'a>, Boxed<Expr>), Stop>
        requires { Nests self.now.levels
            (E.pre self.now.expr) (E.post self.now.expr) (S.pre self.now.set)
            (S.post self.now.set) }
        ensures { Reads
            (reading self.now.levels
            (form.some_branch (part Expression)) cursor.old) result cursor.new }
    {
        cursor.sign(TokenKind::Bar)?;
        cursor.word(TokenKind::Lower, b"some")?;
        let word = cursor.lower()?;
        cursor.sign(TokenKind::Arrow)?;
        let some = self.inner_expr(cursor)?;
        Ok((word, some))
    }

    /// An expression by whether there is some.
    #[tactic(auto, unfolding(text_grammar::specs::Reading::read, text_tree::specs::ExprGrammar::match_expr))]
    fn match_expr(&self, cursor: &mut Cursor<'_>) -> Result<Boxed<Expr>, Stop>
        requires { Nests self.now.levels
            (E.pre self.now.expr) (E.post self.now.expr) (S.pre self.now.set)
            (S.post self.now.set) }
        ensures { Reads (reading self.now.levels form.match_expr cursor.old) result cursor.new }
    {
        let (word, of) = self.scrutinee(cursor)?;
        let none = self.none_branch(cursor)?;
        let (variable, some) = self.some_branch(cursor)?;
        let name = variable.named(self.alloc)?;
        let some = Boxed::new(self.alloc, (name, some.into_inner()))?;
        let choice = Expr::MatchE(word.at(), of, none, some);
        Ok(Boxed::new(self.alloc, choice)?)
    }

    /// An expression.
    #[tactic(auto, unfolding(text_grammar::specs::Reading::read, text_tree::specs::ExprGrammar::expression))]
    pub fn expression(&self, cursor: &mut Cursor<'_>) -> Result<Boxed<Expr>, Stop>
        requires { Nests self.now.levels
            (E.pre self.now.expr) (E.post self.now.expr) (S.pre self.now.set)
            (S.post self.now.set) }
        ensures { Reads (reading self.now.levels form.expression cursor.old) result cursor.new }
    {
        if cursor.begins_if() {
            return self.if_expr(cursor);
        }
        if cursor.begins_match() {
            return self.match_expr(cursor);
        }
        self.disjunction(cursor)
    }
}
