//! The words that the program's arguments are.

ghost use Rattle.std.specs.Prelude.{◌≡◌, ◌∷◌, [], IfOk, map, string_bytes};
ghost use Rattle.app_main.specs.Arguments.{AreWordsOf};

use std::alloc::{AllocError, Global};
use text_ast::Txt;

/// One empty word, which is no command.
pub fn one_empty_word(alloc: Global) -> Result<Vec<Txt>, AllocError>
    ensures { IfOk result (λ words. words.items ≡ [] ∷ []) }
{
    let Some(word) = Txt::make(Vec::new(alloc)) else {
        unreachable!()
    };
    Ok(vec![in alloc; word]?)
}

/// The words that the arguments after the program's name are, or one empty word where one of them
/// is no text.
pub fn words_of(alloc: Global, arguments: Vec<String>) -> Result<Vec<Txt>, AllocError>
    ensures { IfOk result (λ words. AreWordsOf (map string_bytes arguments.items) words.items) }
{
    let mut words = Vec::new(alloc);
    for argument in arguments {
        let Some(word) = Txt::make(argument.into_bytes()) else {
            return one_empty_word(alloc);
        };
        words.push(word).map_err(AllocError::from)?;
    }
    Ok(words)
}
