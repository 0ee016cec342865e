//! The words of the command line.

ghost use Rattle.std.specs.Prelude.{◌≡◌, IfOk, MatchOption, None, Some};
ghost use Rattle.text_ast.specs.Words.{IsText};
ghost use Rattle.app_files.specs.Words as spec;

use crate::limits::MOST_GENERATED;
use std::alloc::{AllocError, Global};
use text_ast::Txt;

/// The names of the files of `check SPEC SCRIPT`.
#[derive(Clone, Copy)]
pub struct Names<'w> {
    /// The name of the specification.
    pub spec: &'w Txt,
    /// The name of the script.
    pub script: &'w Txt,
}

/// Whether a word names a file: it is not empty and does not begin with `-`.
pub fn is_operand(word: &Txt) -> bool
    ensures { result ≡ spec.is_operand word.now }
{
    match word.bytes() {
        [] => false,
        [first, ..] => *first != b'-',
    }
}

/// The names that the words give, where they are `check SPEC SCRIPT`.
pub fn check_of(words: &[Txt]) -> Option<Names<'_>>
    ensures { MatchOption result (spec.check_of words.now ≡ None)
        (λ names. spec.check_of words.now
        ≡ Some (record { spec = names.spec.now; script = names.script.now })) }
{
    let [word, spec, script] = words else {
        return None;
    };
    if word.bytes() == b"check".as_slice() && is_operand(spec) && is_operand(script) {
        Some(Names { spec, script })
    } else {
        None
    }
}

/// The number that a word writes in digits, without a leading zero: from 1 to the most commands of a
/// generated script.
fn count_of(word: &Txt) -> Option<u32>
    ensures { result ≡ spec.count_of word.now }
{
    match *word.bytes() {
        [digit @ b'1'..=b'9'] => Some(u32::from(digit - b'0')),
        [tens @ b'1'..=b'9', ones @ b'0'..=b'9'] => {
            let count = 10 * u32::from(tens - b'0') + u32::from(ones - b'0');
            if count <= MOST_GENERATED {
                Some(count)
            } else {
                None
            }
        }
        _ => None,
    }
}

/// How many commands are to be made, where the words are `gen N`.
pub fn gen_of(words: &[Txt]) -> Option<u32>
    ensures { result ≡ spec.gen_of words.now }
{
    let [word, count] = words else {
        return None;
    };
    if word.bytes() == b"gen".as_slice() {
        count_of(count)
    } else {
        None
    }
}

/// A word of these bytes.
pub fn word_of(alloc: Global, bytes: &[u8]) -> Result<Txt, AllocError>
    requires { IsText bytes.now }
    ensures { IfOk result (λ word. word ≡ bytes.now) }
{
    let Some(word) = Txt::make(Vec::from_slice(alloc, bytes)?) else {
        unreachable!()
    };
    Ok(word)
}
