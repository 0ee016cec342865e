//! What stands before a sign.

ghost use Rattle.text_tree.specs.Forms.{Sign};
ghost use Rattle.text_grammar.specs.Reading.{made, one};
ghost use Rattle.text_syntax.specs.Reads.{Reads};

use text_lexer::TokenKind;
use text_syntax::{Cursor, Stop};

/// What was read, if this sign comes behind it.
pub fn closed<T: Drop>(cursor: &mut Cursor<'_>, kind: TokenKind, read: T) -> Result<T, Stop>
    ensures { Reads (made (λ _. read) (one (Sign kind) cursor.old)) result cursor.new }
{
    cursor.sign(kind)?;
    Ok(read)
}
