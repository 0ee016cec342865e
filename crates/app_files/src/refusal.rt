//! Why the words are refused.

use crate::fault::Fault;
use text_ast::Txt;
use text_parse::SyntaxErr;
use thiserror::Error;
use type_typing::TypeErr;

/// Why the words get no outcome, with the name of the file where it is about one.
#[derive(Debug, Drop, Error)]
pub enum Refusal {
    /// The words are no command.
    #[error("the words are no command")]
    Usage,
    /// There is no file of the name.
    #[error("a file is missing")]
    Missing(Txt),
    /// The file is above the limit.
    #[error("a file is too long")]
    TooLong(Txt),
    /// The text of the file spells no tree of the language, for this cause.
    #[error("a file is refused: {1}")]
    Text(Txt, SyntaxErr),
    /// The specification in the file is not well typed, for this fault.
    #[error("a specification is refused: {1}")]
    SpecTypes(Txt, TypeErr),
    /// The script in the file is not well typed, for this fault.
    #[error("a script is refused")]
    ScriptTypes(Txt, Fault),
}
