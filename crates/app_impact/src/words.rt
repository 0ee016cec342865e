//! The words of the command.

ghost use Rattle.std.specs.Prelude.{◌≡◌, MatchOption, None, Some};
ghost use Rattle.app_files.specs.Words.{names_of};
ghost use Rattle.app_impact.specs.Words as spec_words;

use app_files::{Names, is_operand};
use text_ast::Txt;

/// The names that the words give, where they are `impact SPEC SCRIPT`.
pub fn impact_of(words: &[Txt]) -> Option<Names<'_>>
    ensures { MatchOption result (spec_words.impact_of words.now ≡ None)
        (λ names. spec_words.impact_of words.now
        ≡ Some (names_of names.spec.now names.script.now)) }
{
    let [word, spec, script] = words else {
        return None;
    };
    if word.bytes() == b"impact".as_slice() && is_operand(spec) && is_operand(script) {
        Some(Names { spec, script })
    } else {
        None
    }
}
