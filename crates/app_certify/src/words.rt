//! The words of commands on certificates.

ghost use Rattle.std.specs.Prelude.{◌≡◌, MatchOption, None, Some};
ghost use Rattle.app_certify.specs.Seen.{command_seen};
ghost use Rattle.app_certify.specs.Words as spec_words;

use app_files::is_operand;
use text_ast::Txt;

/// A command on certificates, with the names of its files.
#[derive(Clone, Copy)]
pub enum CertifyCommand<'w> {
    /// `prove SPEC SCRIPT`
    Prove(&'w Txt, &'w Txt),
    /// `recheck SPEC SCRIPT CERT`
    Recheck(&'w Txt, &'w Txt, &'w Txt),
}

/// The command of a word and the names of two files.
fn of_two_files<'w>(word: &'w Txt, spec: &'w Txt, script: &'w Txt) -> Option<CertifyCommand<'w>>
    ensures { MatchOption result (spec_words.of_two_files word.now spec.now script.now ≡ None)
        (λ command. spec_words.of_two_files word.now spec.now script.now
        ≡ Some (command_seen command)) }
{
    if word.bytes() == b"prove".as_slice() && is_operand(spec) && is_operand(script) {
        Some(CertifyCommand::Prove(spec, script))
    } else {
        None
    }
}

/// The command of a word and the names of three files.
fn of_three_files<'w>(
    word: &'w Txt,
    spec: &'w Txt,
    script: &'w Txt,
    cert: &'w Txt,
) -> Option<CertifyCommand<'w>>
    ensures { MatchOption result
        (spec_words.of_three_files word.now spec.now script.now cert.now ≡ None)
        (λ command. spec_words.of_three_files word.now spec.now script.now cert.now
        ≡ Some (command_seen command)) }
{
    if word.bytes() != b"recheck".as_slice() {
        return None;
    }
    if is_operand(spec) && is_operand(script) && is_operand(cert) {
        Some(CertifyCommand::Recheck(spec, script, cert))
    } else {
        None
    }
}

/// The command on certificates that the words are, if they are one.
pub fn certify_command_of(words: &[Txt]) -> Option<CertifyCommand<'_>>
    ensures { MatchOption result (spec_words.command_of words.now ≡ None)
        (λ command. spec_words.command_of words.now ≡ Some (command_seen command)) }
{
    match words {
        [word, spec, script] => of_two_files(word, spec, script),
        [word, spec, script, cert] => of_three_files(word, spec, script, cert),
        _ => None,
    }
}
