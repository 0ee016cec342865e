//! Expressions and sets that no other holds.

ghost use Rattle.text_tree.specs.ExprGrammar.{Expression, Set};
ghost use Rattle.text_tree.specs.Forms.{part, within};
ghost use Rattle.text_tree.specs.Grammar.{most_levels, most_tokens};
ghost use Rattle.text_syntax.specs.Reads.{Reads, reading};

use crate::cursor::Cursor;
use crate::nested::{expr, set};
use crate::stop::Stop;
use std::alloc::Global;
use text_ast::limits::{MOST_LEVELS, MOST_TOKENS};
use text_tree::{Expr, SetExpr};

/// How many tokens are looked at. What is read never looks further than one token ahead, so it is
/// the same as if it were read among all tokens; and it is no deeper than these can nest.
const WINDOW: usize = MOST_TOKENS + 1;

/// An expression that no other holds.
#[tactic(auto, unfolding(text_grammar::specs::Reading::read))]
pub fn outermost_expression(alloc: Global, cursor: &mut Cursor<'_>) -> Result<Expr, Stop>
    ensures { Reads
        (reading most_levels (within most_tokens (part Expression)) cursor.old) result cursor.new }
{
    let mut window = cursor.window(WINDOW);
    let start = window.mark();
    let read = expr(alloc, &mut window, MOST_LEVELS);
    let read = window.within(start, MOST_TOKENS, read);
    cursor.follow(&window, WINDOW);
    Ok(read?.into_inner())
}

/// A set that no other holds.
#[tactic(auto, unfolding(text_grammar::specs::Reading::read))]
pub fn outermost_set(alloc: Global, cursor: &mut Cursor<'_>) -> Result<SetExpr, Stop>
    ensures { Reads
        (reading most_levels (within most_tokens (part Set)) cursor.old) result cursor.new }
{
    let mut window = cursor.window(WINDOW);
    let start = window.mark();
    let read = set(alloc, &mut window, MOST_LEVELS);
    let read = window.within(start, MOST_TOKENS, read);
    cursor.follow(&window, WINDOW);
    Ok(read?.into_inner())
}
