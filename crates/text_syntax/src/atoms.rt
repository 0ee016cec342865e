//! Paths, values that are written out, and the other operands of operators.

ghost use Rattle.std.specs.Prelude.{◌≡◌, ◌≤◌};
ghost use Rattle.std.specs.List.{fold};
ghost use Rattle.text_lexer.specs.declared.limits.TheConstants.{LARGEST_NUMBER};
ghost use Rattle.text_tree.specs.ExprGrammar as form;
ghost use Rattle.text_tree.specs.Forms.{each, token, AnyNumber, Lower};
ghost use Rattle.text_grammar.specs.Reading.{made};
ghost use Rattle.text_syntax.specs.Nests.{Nests};
ghost use Rattle.text_syntax.specs.Parts.{field_form};
ghost use Rattle.text_syntax.specs.Reads.{Reads, reading};

use crate::cursor::Cursor;
use crate::grammar::Grammar;
use crate::stop::Stop;
use sqlite_items::Boxed;
use std::alloc::Global;
use text_lexer::TokenKind;
use text_tree::{Expr, SetExpr};

/// Minus this number.
fn minus(number: u64) -> i64
    requires some { 1 ≤ number }
    requires within { number ≤ LARGEST_NUMBER }
    ensures { result ≡ form.minus number }
{
    -((number - 1) as i64) - 1
}

impl<
    E: Fn(Global, &mut Cursor<'_>, u32) -> Result<Boxed<Expr>, Stop>,
    S: Fn(Global, &mut Cursor<'_>, u32) -> Result<Boxed<SetExpr>, Stop>,
> Grammar<E, S> {
    /// A variable, or an expression in parentheses.
    #[tactic(auto, unfolding(text_grammar::specs::Reading::read, text_tree::specs::ExprGrammar::path_root))]
    fn path_root(&self, cursor: &mut Cursor<'_>) -> Result<Boxed<Expr>, Stop>
        requires { Nests self.now.levels
            (E.pre self.now.expr) (E.post self.now.expr) (S.pre self.now.set)
            (S.post self.now.set) }
        ensures { Reads (reading self.now.levels form.path_root cursor.old) result cursor.new }
    {
        if cursor.sees_lower() {
            let word = cursor.lower()?;
            let name = word.named(self.alloc)?;
            return Ok(Boxed::new(self.alloc, Expr::Var(word.at(), name))?);
        }
        let open = cursor.sign(TokenKind::ParenOpen)?;
        let inner = self.inner_expr(cursor)?;
        cursor.sign(TokenKind::ParenClose)?;
        Ok(Boxed::new(self.alloc, inner.into_inner().placed(open.at()))?)
    }

    /// A field of what the expression names.
    #[tactic(auto, unfolding(text_grammar::specs::Reading::read))]
    fn get(&self, cursor: &mut Cursor<'_>, of: Boxed<Expr>) -> Result<Boxed<Expr>, Stop>
        ensures { Reads
            (made (form.get of) (reading self.now.levels field_form cursor.old)) result cursor.new }
    {
        cursor.sign(TokenKind::Dot)?;
        self.get_field(cursor, of)
    }

    /// A field behind a dot that is read.
    #[tactic(auto, unfolding(text_grammar::specs::Reading::read))]
    pub fn get_field(&self, cursor: &mut Cursor<'_>, of: Boxed<Expr>) -> Result<Boxed<Expr>, Stop>
        ensures { Reads
            (made (form.get of)
            (reading self.now.levels (token Lower) cursor.old)) result cursor.new }
    {
        let word = cursor.lower()?;
        let field = word.boxed_name(self.alloc)?;
        let at = of.get().at();
        Ok(Boxed::new(self.alloc, Expr::Get(at, of, field))?)
    }

    /// A field of that, and so on.
    #[tactic(auto, unfolding(text_grammar::specs::Reading::read))]
    fn fields(&self, cursor: &mut Cursor<'_>, of: Boxed<Expr>) -> Result<Boxed<Expr>, Stop>
        ensures { Reads
            (made (fold form.get of)
            (reading self.now.levels (each AnyNumber field_form) cursor.old)) result cursor.new }
    {
        let mut of = of;
        for _turn in 0..cursor.len() {
            if !cursor.sees(TokenKind::Dot) {
                return Ok(of);
            }
            of = self.get(cursor, of)?;
        }
        cursor.unless(TokenKind::Dot, of)
    }

    /// A variable or an expression in parentheses, and fields of it.
    #[tactic(auto, using(crate::proofs::Folds::made_made), unfolding(text_grammar::specs::Reading::read, text_tree::specs::ExprGrammar::path))]
    pub fn path(&self, cursor: &mut Cursor<'_>) -> Result<Boxed<Expr>, Stop>
        requires { Nests self.now.levels
            (E.pre self.now.expr) (E.post self.now.expr) (S.pre self.now.set)
            (S.post self.now.set) }
        ensures { Reads (reading self.now.levels form.path cursor.old) result cursor.new }
    {
        let root = self.path_root(cursor)?;
        self.fields(cursor, root)
    }

    /// `true` or `false`.
    #[tactic(auto, unfolding(text_grammar::specs::Reading::read, text_tree::specs::ExprGrammar::flag))]
    fn flag(&self, cursor: &mut Cursor<'_>) -> Result<Boxed<Expr>, Stop>
        ensures { Reads (reading self.now.levels form.flag cursor.old) result cursor.new }
    {
        if cursor.sees_word(TokenKind::Lower, b"true") {
            let word = cursor.word(TokenKind::Lower, b"true")?;
            return Ok(Boxed::new(self.alloc, Expr::Flag(word.at(), true))?);
        }
        let word = cursor.word(TokenKind::Lower, b"false")?;
        Ok(Boxed::new(self.alloc, Expr::Flag(word.at(), false))?)
    }

    /// A number, with a minus before it or none.
    #[tactic(auto, unfolding(text_grammar::specs::Reading::read, text_tree::specs::ExprGrammar::number))]
    fn number(&self, cursor: &mut Cursor<'_>) -> Result<Boxed<Expr>, Stop>
        ensures { Reads (reading self.now.levels form.number cursor.old) result cursor.new }
    {
        if cursor.sees_plain() {
            let token = cursor.plain()?;
            let number = Expr::Num(token.at(), token.number() as i64);
            return Ok(Boxed::new(self.alloc, number)?);
        }
        let sign = cursor.sign(TokenKind::Minus)?;
        let token = cursor.negated()?;
        let number = Expr::Num(sign.at(), minus(token.number()));
        Ok(Boxed::new(self.alloc, number)?)
    }

    /// A text in quotes.
    #[tactic(auto, unfolding(text_grammar::specs::Reading::read, text_tree::specs::ExprGrammar::literal))]
    fn literal(&self, cursor: &mut Cursor<'_>) -> Result<Boxed<Expr>, Stop>
        ensures { Reads (reading self.now.levels form.literal cursor.old) result cursor.new }
    {
        let token = cursor.literal()?;
        let text = Boxed::new(self.alloc, token.text(self.alloc)?)?;
        Ok(Boxed::new(self.alloc, Expr::Str(token.at(), text))?)
    }

    /// `none`, or `some` of an expression.
    #[tactic(auto, unfolding(text_grammar::specs::Reading::read, text_tree::specs::ExprGrammar::option))]
    fn option(&self, cursor: &mut Cursor<'_>) -> Result<Boxed<Expr>, Stop>
        requires { Nests self.now.levels
            (E.pre self.now.expr) (E.post self.now.expr) (S.pre self.now.set)
            (S.post self.now.set) }
        ensures { Reads (reading self.now.levels form.option cursor.old) result cursor.new }
    {
        if cursor.sees_word(TokenKind::Lower, b"none") {
            let word = cursor.word(TokenKind::Lower, b"none")?;
            return Ok(Boxed::new(self.alloc, Expr::NoneLit(word.at()))?);
        }
        let word = cursor.word(TokenKind::Lower, b"some")?;
        cursor.sign(TokenKind::ParenOpen)?;
        let inner = self.inner_expr(cursor)?;
        cursor.sign(TokenKind::ParenClose)?;
        Ok(Boxed::new(self.alloc, Expr::SomeLit(word.at(), inner))?)
    }

    /// An expression that no operator goes through.
    #[tactic(auto, unfolding(text_grammar::specs::Reading::read, text_tree::specs::ExprGrammar::atom))]
    pub fn atom(&self, cursor: &mut Cursor<'_>) -> Result<Boxed<Expr>, Stop>
        requires { Nests self.now.levels
            (E.pre self.now.expr) (E.post self.now.expr) (S.pre self.now.set)
            (S.post self.now.set) }
        ensures { Reads (reading self.now.levels form.atom cursor.old) result cursor.new }
    {
        if cursor.begins_flag() {
            return self.flag(cursor);
        }
        if cursor.begins_number() {
            return self.number(cursor);
        }
        if cursor.begins_literal() {
            return self.literal(cursor);
        }
        if cursor.begins_option() {
            return self.option(cursor);
        }
        self.path(cursor)
    }
}
