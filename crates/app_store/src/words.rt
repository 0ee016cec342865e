//! The words of commands over the store.

ghost use Rattle.std.specs.Prelude.{◌≡◌, MatchOption, None, Some};
ghost use Rattle.app_store.specs.Seen.{command_seen};
ghost use Rattle.app_store.specs.Words as spec_words;

use app_files::is_operand;
use text_ast::Txt;

/// A command over the store, with the names of its files.
#[derive(Clone, Copy)]
pub enum StoreCommand<'w> {
    /// `init SPEC`, and `init SPEC DATA` where data are named.
    Init(&'w Txt, Option<&'w Txt>),
    /// `check SCRIPT`
    Check(&'w Txt),
    /// `apply SCRIPT`
    Apply(&'w Txt),
    /// `show`
    Show,
}

/// The command of a word alone.
fn of_no_file<'w>(word: &'w Txt) -> Option<StoreCommand<'w>>
    ensures { MatchOption result (spec_words.of_no_file word.now ≡ None)
        (λ command. spec_words.of_no_file word.now ≡ Some (command_seen command)) }
{
    if word.bytes() == b"show".as_slice() {
        Some(StoreCommand::Show)
    } else {
        None
    }
}

/// The command of a word and the name of one file.
fn of_one_file<'w>(word: &'w Txt, name: &'w Txt) -> Option<StoreCommand<'w>>
    ensures { MatchOption result (spec_words.of_one_file word.now name.now ≡ None)
        (λ command. spec_words.of_one_file word.now name.now ≡ Some (command_seen command)) }
{
    if !is_operand(name) {
        return None;
    }
    if word.bytes() == b"init".as_slice() {
        Some(StoreCommand::Init(name, None))
    } else if word.bytes() == b"check".as_slice() {
        Some(StoreCommand::Check(name))
    } else if word.bytes() == b"apply".as_slice() {
        Some(StoreCommand::Apply(name))
    } else {
        None
    }
}

/// The command of a word and the names of two files.
fn of_two_files<'w>(word: &'w Txt, spec: &'w Txt, base: &'w Txt) -> Option<StoreCommand<'w>>
    ensures { MatchOption result (spec_words.of_two_files word.now spec.now base.now ≡ None)
        (λ command. spec_words.of_two_files word.now spec.now base.now ≡ Some (command_seen command)) }
{
    if word.bytes() == b"init".as_slice() && is_operand(spec) && is_operand(base) {
        Some(StoreCommand::Init(spec, Some(base)))
    } else {
        None
    }
}

/// The command over the store that the words are, if they are one.
pub fn store_command_of(words: &[Txt]) -> Option<StoreCommand<'_>>
    ensures { MatchOption result (spec_words.command_of words.now ≡ None)
        (λ command. spec_words.command_of words.now ≡ Some (command_seen command)) }
{
    match words {
        [word] => of_no_file(word),
        [word, name] => of_one_file(word, name),
        [word, spec, base] => of_two_files(word, spec, base),
        _ => None,
    }
}
