//! The productions with what they need, and how expressions and sets nest.

ghost use Rattle.text_tree.specs.ExprGrammar as form;
ghost use Rattle.text_tree.specs.ExprGrammar.{rule, Expression, Set};
ghost use Rattle.text_tree.specs.Texts.{first_of};
ghost use Rattle.text_grammar.specs.Reading.{read_part};
ghost use Rattle.text_syntax.specs.Nests.{Nests};
ghost use Rattle.text_syntax.specs.Reads.{Reads};

use crate::cursor::Cursor;
use crate::stop::Stop;
use sqlite_items::Boxed;
use std::alloc::Global;
use text_tree::{Expr, SetExpr};

/// The productions, with the functions that read the expressions and sets in them. So each
/// production is proved by itself, and only these two functions call each other.
#[derive(Clone, Copy)]
pub struct Grammar<E, S> {
    pub alloc: Global,
    /// How many levels deep the expressions and sets may nest.
    pub levels: u32,
    pub expr: E,
    pub set: S,
}

impl<
    E: Fn(Global, &mut Cursor<'_>, u32) -> Result<Boxed<Expr>, Stop>,
    S: Fn(Global, &mut Cursor<'_>, u32) -> Result<Boxed<SetExpr>, Stop>,
> Grammar<E, S> {
    /// An expression, one level deeper.
    pub fn inner_expr(&self, cursor: &mut Cursor<'_>) -> Result<Boxed<Expr>, Stop>
        requires { Nests self.now.levels
            (E.pre self.now.expr) (E.post self.now.expr) (S.pre self.now.set)
            (S.post self.now.set) }
        ensures { Reads
            (read_part rule first_of self.now.levels Expression cursor.old) result cursor.new }
    {
        (self.expr)(self.alloc, cursor, self.levels)
    }

    /// A set, one level deeper.
    pub fn inner_set(&self, cursor: &mut Cursor<'_>) -> Result<Boxed<SetExpr>, Stop>
        requires { Nests self.now.levels
            (E.pre self.now.expr) (E.post self.now.expr) (S.pre self.now.set)
            (S.post self.now.set) }
        ensures { Reads (read_part rule first_of self.now.levels Set cursor.old) result cursor.new }
    {
        (self.set)(self.alloc, cursor, self.levels)
    }
}
