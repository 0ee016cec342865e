//! How expressions and sets nest.

ghost use Rattle.std.specs.Prelude.{◌≡◌, Some, if◌then◌else◌};
ghost use Rattle.text_tree.specs.ExprGrammar.{Expression, Set, rule};
ghost use Rattle.text_tree.specs.Forms.{NotGrammar, TooDeep};
ghost use Rattle.text_tree.specs.Texts.{first_of};
ghost use Rattle.text_grammar.specs.Reading.{read_part, starts};
ghost use Rattle.text_syntax.specs.Reads.{Reads, cause_of};

use crate::cursor::Cursor;
use crate::grammar::Grammar;
use crate::stop::Stop;
use sqlite_items::Boxed;
use std::alloc::Global;
use text_tree::{Expr, SetExpr};

/// Why no expression stands below as many as there may be.
fn expr_stop(cursor: &Cursor<'_>) -> Stop
    ensures { cause_of result
        ≡ Some (if starts (first_of Expression) cursor.now then TooDeep else NotGrammar) }
{
    if cursor.begins_expr() {
        Stop::TooDeep
    } else {
        Stop::NotGrammar
    }
}

/// Why no set stands below as many as there may be.
fn set_stop(cursor: &Cursor<'_>) -> Stop
    ensures { cause_of result
        ≡ Some (if starts (first_of Set) cursor.now then TooDeep else NotGrammar) }
{
    if cursor.begins_set() {
        Stop::TooDeep
    } else {
        Stop::NotGrammar
    }
}

/// An expression in which others nest so many levels deep.
#[cycle(nested)]
pub fn expr(alloc: Global, cursor: &mut Cursor<'_>, levels: u32) -> Result<Boxed<Expr>, Stop>
    ensures { Reads (read_part rule first_of levels Expression cursor.old) result cursor.new }
{
    if levels == 0 {
        return Err(expr_stop(cursor));
    }
    Grammar {
        alloc,
        levels: levels - 1,
        expr,
        set,
    }
    .expression(cursor)
}

/// A set in which others nest so many levels deep.
#[cycle(nested)]
pub fn set(alloc: Global, cursor: &mut Cursor<'_>, levels: u32) -> Result<Boxed<SetExpr>, Stop>
    ensures { Reads (read_part rule first_of levels Set cursor.old) result cursor.new }
{
    if levels == 0 {
        return Err(set_stop(cursor));
    }
    Grammar {
        alloc,
        levels: levels - 1,
        expr,
        set,
    }
    .set(cursor)
}
