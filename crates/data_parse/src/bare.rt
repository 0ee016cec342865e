//! Texts without a backslash, as most are.

ghost use Rattle.std.specs.Prelude.{◌≡◌, IfOk, IfSome};
ghost use Rattle.std.specs.List.{list_all};
ghost use Rattle.text_tree.specs.LiteralValue.{literal_value};
ghost use Rattle.data_parse.specs.Bare.{is_bare, IsBareLiteral};

use std::alloc::{AllocError, Global};
use text_ast::Txt;
use text_lexer::TokenKind;
use text_syntax::Piece;

/// Whether each byte is neither a quote nor a backslash.
fn are_bare(bytes: &[u8]) -> bool
    ensures { result ≡ list_all is_bare bytes.now }
{
    let quoted = bytes.contains(&b'"');
    let slashed = bytes.contains(&b'\\');
    !(quoted | slashed)
}

/// What stands between the quotes of a literal, if no backslash does.
fn between_quotes(literal: &[u8]) -> Option<&[u8]>
    ensures { IfSome result (λ inside. IsBareLiteral literal.now inside.now) }
{
    match literal {
        [b'"', inside @ .., b'"'] if are_bare(inside) => Some(inside),
        _ => None,
    }
}

/// The text that a literal stands for, if no backslash is in it.
#[tactic(auto, using(crate::proofs::BareTexts::bare_literal))]
fn bare_text(alloc: Global, literal: &[u8]) -> Result<Option<Txt>, AllocError>
    ensures { IfOk result (λ found. IfSome found (λ text. text ≡ literal_value literal.now)) }
{
    let Some(inside) = between_quotes(literal) else {
        return Ok(None);
    };
    Ok(Txt::make(Vec::from_slice(alloc, inside)?))
}

/// The text that the token stands for.
pub(crate) fn text_of(alloc: Global, token: &Piece<'_>) -> Result<Txt, AllocError>
    requires { token.now.kind ≡ TokenKind.Text }
    ensures { IfOk result (λ text. text ≡ literal_value token.now.bytes) }
{
    match bare_text(alloc, token.bytes())? {
        Some(text) => Ok(text),
        None => token.text(alloc),
    }
}
