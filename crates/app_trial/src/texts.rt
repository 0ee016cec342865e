//! Texts that nobody fetches.

ghost use Rattle.std.specs.Prelude.{◌≤◌, length};
ghost use Rattle.app_files.specs.declared.limits.TheConstants.{MOST_FILE_BYTES};

use app_files::{MOST_FILE_BYTES, NamedText, Stop, check_texts};
use check_scripts::Outcome;
use std::alloc::{AllocError, Global};
use text_ast::Txt;

/// A word for what was found.
fn word_for(outcome: &Outcome) -> &'static str {
    match outcome {
        Outcome::Accepted { .. } => "accepted",
        Outcome::Leak(_) => "leak",
        Outcome::Undecided { .. } => "undecided",
        Outcome::TooLarge { .. } => "too large",
    }
}

/// What the check of the script finds that the one text is, over the specification that the other
/// is. The texts are no longer than a file may be.
fn word_of_texts(
    alloc: Global,
    name: &Txt,
    spec: &[u8],
    script: &[u8],
) -> Result<&'static str, AllocError>
    requires spec { length spec.now ≤ MOST_FILE_BYTES }
    requires script { length script.now ≤ MOST_FILE_BYTES }
{
    let spec = NamedText { name, bytes: spec };
    let script = NamedText {
        name,
        bytes: script,
    };
    match check_texts(alloc, spec, script) {
        Ok(found) => Ok(word_for(&found.outcome)),
        Err(Stop::OutOfMemory) => Err(AllocError),
        Err(_) => Ok("refused"),
    }
}

/// What the check finds of a script and its specification that nobody fetches: the texts themselves
/// are handed in.
pub fn check_bytes(alloc: Global, spec: &[u8], script: &[u8]) -> Result<&'static str, AllocError> {
    if spec.len() > MOST_FILE_BYTES || script.len() > MOST_FILE_BYTES {
        return Ok("too long");
    }
    match Txt::make(Vec::from_slice(alloc, b"text")?) {
        Some(name) => word_of_texts(alloc, &name, spec, script),
        None => Ok("no name"),
    }
}
