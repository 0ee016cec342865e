//! Sets that `map` and `flat_map` make of others.

ghost use Rattle.std.specs.Prelude.{◌≡◌, Err, List};
ghost use Rattle.std.specs.List.{fold};
ghost use Rattle.text_tree.specs.ExprGrammar as form;
ghost use Rattle.text_tree.specs.Forms.{Lower, token};
ghost use Rattle.text_ast.specs.Pieces.{Piece};
ghost use Rattle.text_grammar.specs.Reading.{Got, made};
ghost use Rattle.text_syntax.specs.Nests.{Nests};
ghost use Rattle.text_syntax.specs.Parts.{chain_form, last_field, last_step};
ghost use Rattle.text_syntax.specs.Reads.{Reads, reading};

use crate::cursor::Cursor;
use crate::grammar::Grammar;
use crate::stop::Stop;
use sqlite_items::Boxed;
use std::alloc::Global;
use text_lexer::TokenKind;
use text_tree::{Expr, SetExpr};

/// The next token does not go on with what was read.
fn refused(_read: Boxed<SetExpr>) -> Result<Boxed<SetExpr>, Stop>
    ensures { result ≡ Err Stop.NotGrammar }
{
    Err(Stop::NotGrammar)
}

impl<
    E: Fn(Global, &mut Cursor<'_>, u32) -> Result<Boxed<Expr>, Stop>,
    S: Fn(Global, &mut Cursor<'_>, u32) -> Result<Boxed<SetExpr>, Stop>,
> Grammar<E, S> {
    /// What may follow as many steps as there may be.
    #[tactic(auto, unfolding(text_grammar::specs::Reading::read))]
    fn last_step(&self, cursor: &mut Cursor<'_>, of: Boxed<SetExpr>) -> Result<Boxed<SetExpr>, Stop>
        requires { Nests self.now.levels
            (E.pre self.now.expr) (E.post self.now.expr) (S.pre self.now.set)
            (S.post self.now.set) }
        ensures { Reads (last_step self.now.levels of cursor.old) result cursor.new }
    {
        if !cursor.take(TokenKind::Dot) {
            return Ok(of);
        }
        if cursor.begins_map() {
            return refused(of);
        }
        self.flat_step(cursor, of)
    }

    /// `map` again and again, and `flat_map` at the end.
    #[tactic(auto, unfolding(text_grammar::specs::Reading::read, text_tree::specs::ExprGrammar::steps))]
    fn steps(&self, cursor: &mut Cursor<'_>, of: Boxed<SetExpr>) -> Result<Boxed<SetExpr>, Stop>
        requires { Nests self.now.levels
            (E.pre self.now.expr) (E.post self.now.expr) (S.pre self.now.set)
            (S.post self.now.set) }
        ensures { Reads
            (made (form.step of)
            (reading self.now.levels form.steps cursor.old)) result cursor.new }
    {
        let mut of = of;
        for _turn in 0..cursor.len() {
            if !cursor.take(TokenKind::Dot) {
                return Ok(of);
            }
            if !cursor.begins_map() {
                return self.flat_step(cursor, of);
            }
            of = self.map_step(cursor, of)?;
        }
        self.last_step(cursor, of)
    }

    /// `Find`, and the steps after it.
    #[tactic(auto, using(crate::proofs::Folds::made_made), unfolding(text_grammar::specs::Reading::read, text_tree::specs::ExprGrammar::found))]
    pub fn found(&self, cursor: &mut Cursor<'_>) -> Result<Boxed<SetExpr>, Stop>
        requires { Nests self.now.levels
            (E.pre self.now.expr) (E.post self.now.expr) (S.pre self.now.set)
            (S.post self.now.set) }
        ensures { Reads (reading self.now.levels form.found cursor.old) result cursor.new }
    {
        let of = self.find(cursor)?;
        self.steps(cursor, of)
    }

    /// What follows the fields of a path.
    #[tactic(auto, using(crate::proofs::Folds::made_made), unfolding(text_grammar::specs::Reading::read, text_tree::specs::ExprGrammar::path_steps))]
    fn path_steps(
        &self,
        cursor: &mut Cursor<'_>,
        of: Boxed<SetExpr>,
    ) -> Result<Boxed<SetExpr>, Stop>
        requires { Nests self.now.levels
            (E.pre self.now.expr) (E.post self.now.expr) (S.pre self.now.set)
            (S.post self.now.set) }
        ensures { Reads
            (made (form.step of)
            (reading self.now.levels form.path_steps cursor.old)) result cursor.new }
    {
        if cursor.begins_map() {
            let of = self.map_step(cursor, of)?;
            return self.steps(cursor, of);
        }
        self.flat_step(cursor, of)
    }

    /// What may follow as many fields as there may be.
    #[tactic(auto, unfolding(text_grammar::specs::Reading::read))]
    fn last_field(&self, cursor: &mut Cursor<'_>, of: Expr, at: u32) -> Result<Boxed<SetExpr>, Stop>
        requires { Nests self.now.levels
            (E.pre self.now.expr) (E.post self.now.expr) (S.pre self.now.set)
            (S.post self.now.set) }
        ensures { Reads
            (last_field self.now.levels (SetExpr.Path at of) cursor.old) result cursor.new }
    {
        let set = Boxed::new(self.alloc, SetExpr::Path(at, of))?;
        if !cursor.take(TokenKind::Dot) {
            return Ok(set);
        }
        if cursor.sees_lower() {
            return refused(set);
        }
        self.path_steps(cursor, set)
    }

    /// The set that an expression names.
    fn path_set(&self, of: Expr, at: u32) -> Result<Boxed<SetExpr>, Stop>
        ensures { (rest : List Piece) → Reads (Got (SetExpr.Path at of) rest) result rest }
    {
        Ok(Boxed::new(self.alloc, SetExpr::Path(at, of))?)
    }

    /// The steps after the fields of a path.
    #[tactic(auto, unfolding(text_grammar::specs::Reading::read))]
    fn path_end(&self, cursor: &mut Cursor<'_>, of: Expr, at: u32) -> Result<Boxed<SetExpr>, Stop>
        requires { Nests self.now.levels
            (E.pre self.now.expr) (E.post self.now.expr) (S.pre self.now.set)
            (S.post self.now.set) }
        ensures { Reads
            (made (form.step (SetExpr.Path at of))
            (reading self.now.levels form.path_steps cursor.old)) result cursor.new }
    {
        let set = Boxed::new(self.alloc, SetExpr::Path(at, of))?;
        self.path_steps(cursor, set)
    }

    /// A field of an expression, behind a dot that was read. Neither is in a box.
    #[tactic(auto, unfolding(text_grammar::specs::Reading::read))]
    fn next_field(&self, cursor: &mut Cursor<'_>, of: Expr) -> Result<Expr, Stop>
        ensures { Reads
            (made (form.get of)
            (reading self.now.levels (token Lower) cursor.old)) result cursor.new }
    {
        let word = cursor.lower()?;
        let field = word.boxed_name(self.alloc)?;
        let at = of.at();
        let of = Boxed::new(self.alloc, of)?;
        Ok(Expr::Get(at, of, field))
    }

    /// The fields of a variable, and the steps after them.
    #[tactic(auto, unfolding(text_grammar::specs::Reading::read))]
    fn chain(&self, cursor: &mut Cursor<'_>, of: Expr, at: u32) -> Result<Boxed<SetExpr>, Stop>
        requires { Nests self.now.levels
            (E.pre self.now.expr) (E.post self.now.expr) (S.pre self.now.set)
            (S.post self.now.set) }
        ensures { Reads
            (made (λ v. v.1 (SetExpr.Path at (fold form.get of v.0)))
            (reading self.now.levels chain_form cursor.old)) result cursor.new }
    {
        let mut of = of;
        for _turn in 0..cursor.len() {
            if !cursor.take(TokenKind::Dot) {
                return self.path_set(of, at);
            }
            if !cursor.sees_lower() {
                return self.path_end(cursor, of, at);
            }
            of = self.next_field(cursor, of)?;
        }
        self.last_field(cursor, of, at)
    }

    /// A variable, its fields, and the steps after them.
    #[tactic(auto, using(crate::proofs::Folds::made_made), unfolding(text_grammar::specs::Reading::read, text_tree::specs::ExprGrammar::path_chain))]
    pub fn path_chain(&self, cursor: &mut Cursor<'_>) -> Result<Boxed<SetExpr>, Stop>
        requires { Nests self.now.levels
            (E.pre self.now.expr) (E.post self.now.expr) (S.pre self.now.set)
            (S.post self.now.set) }
        ensures { Reads (reading self.now.levels form.path_chain cursor.old) result cursor.new }
    {
        let word = cursor.lower()?;
        let name = word.named(self.alloc)?;
        let at = word.at();
        self.chain(cursor, Expr::Var(at, name), at)
    }
}
