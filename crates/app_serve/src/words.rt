//! The words of `serve`.

ghost use Rattle.std.specs.Prelude.{◌≡◌};
ghost use Rattle.app_serve.specs.Words as spec;

use text_ast::Txt;

/// Whether the words are those of `serve`.
pub fn is_serve(words: &[Txt]) -> bool
    ensures { result ≡ spec.is_serve words.now }
{
    match words {
        [word] => word.bytes() == b"serve".as_slice(),
        _ => false,
    }
}
