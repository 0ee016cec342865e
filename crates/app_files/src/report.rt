//! The texts that the program prints.

ghost use Rattle.std.specs.Prelude.{◌≡◌, ◌==◌, IfOk};
ghost use Rattle.std.specs.List.{position};
ghost use Rattle.check_scripts.specs.Views.{outcome_data};
ghost use Rattle.app_files.specs.Answer as answer;
ghost use Rattle.app_files.specs.Answer.{outcome_text, refusal_text, text_of};
ghost use Rattle.app_files.specs.Report as spec;
ghost use Rattle.type_schema.specs.SchemaViews.{script_of};
ghost use Rattle.text_parse.specs.declared.syntax_err.SyntaxErr.TheVariants.{TooMany};

use crate::answer::{Answer, Checked, Generated};
use crate::fault::Fault;
use crate::pieces::join_pieces;
use crate::refusal::Refusal;
use check_report::{print_too_large, print_undecided, print_witness};
use check_scripts::Outcome;
use std::alloc::{AllocError, Global};
use text_parse::{SyntaxErr, What};
use type_typing::TypeErr;

/// The commands.
const USAGE: &[u8] =
    b"usage: init SPEC [DATA], check [SPEC] SCRIPT, apply SCRIPT, show, serve, gen N, prove SPEC SCRIPT, recheck SPEC SCRIPT CERT, impact SPEC SCRIPT\n";

/// The line on a cause for which a file, or a command of it, is refused, and its place.
pub fn print_cause(
    alloc: Global,
    of: &[u8],
    cause: &[u8],
    place: u32,
) -> Result<Vec<u8>, AllocError>
    ensures { IfOk result (λ text. text.items ≡ spec.cause_text of.now cause.now place) }
{
    let number = place.to_string(alloc)?;
    join_pieces(alloc, &[of, b": ", cause, number.as_bytes(), b"\n"])
}

/// The line on something of which a file has too many.
fn too_many_text(alloc: Global, name: &[u8], what: What, at: u32) -> Result<Vec<u8>, AllocError>
    ensures { IfOk result (λ text. text.items ≡ spec.syntax_text name.now (TooMany what at)) }
{
    match what {
        What::Statics => print_cause(alloc, name, b"too many statics at ", at),
        What::Models => print_cause(alloc, name, b"too many models at ", at),
        What::Fields => print_cause(alloc, name, b"too many fields at ", at),
        What::Commands => print_cause(alloc, name, b"too many commands at ", at),
        What::NameBytes => print_cause(alloc, name, b"too many name bytes at ", at),
        What::TextBytes => print_cause(alloc, name, b"too many text bytes at ", at),
    }
}

/// The line on a file whose text is refused.
pub fn print_syntax(alloc: Global, name: &[u8], err: SyntaxErr) -> Result<Vec<u8>, AllocError>
    ensures { IfOk result (λ text. text.items ≡ spec.syntax_text name.now err) }
{
    match err {
        SyntaxErr::NotText { at } => print_cause(alloc, name, b"not text at ", at),
        SyntaxErr::BadByte { at } => print_cause(alloc, name, b"bad byte at ", at),
        SyntaxErr::BadNumber { at } => print_cause(alloc, name, b"bad number at ", at),
        SyntaxErr::Unfinished { at } => print_cause(alloc, name, b"unfinished at ", at),
        SyntaxErr::NotGrammar { token } => {
            print_cause(alloc, name, b"not grammar at token ", token)
        }
        SyntaxErr::TooDeep { at } => print_cause(alloc, name, b"too deep at ", at),
        SyntaxErr::TooManyTokens { at } => print_cause(alloc, name, b"too many tokens at ", at),
        SyntaxErr::TooMany { what, at } => too_many_text(alloc, name, what, at),
        SyntaxErr::OutOfMemory => join_pieces(alloc, &[name, b": out of memory\n"]),
    }
}

/// The line on a thing that is still used.
fn still_used_text(alloc: Global, of: &[u8], at: u32, user: &[u8]) -> Result<Vec<u8>, AllocError>
    ensures { IfOk result (λ text. text.items ≡ spec.still_used_text of.now at user.now) }
{
    let number = at.to_string(alloc)?;
    join_pieces(
        alloc,
        &[
            of,
            b": still used at ",
            number.as_bytes(),
            b" by ",
            user,
            b"\n",
        ],
    )
}

/// The line on what becomes too large a formula.
fn expanded_text(alloc: Global, of: &[u8], at: u32, count: u32) -> Result<Vec<u8>, AllocError>
    ensures { IfOk result (λ text. text.items ≡ spec.expanded_text of.now at count) }
{
    let size = count.to_string(alloc)?;
    let number = at.to_string(alloc)?;
    join_pieces(
        alloc,
        &[
            of,
            b": expanded ",
            size.as_bytes(),
            b" at ",
            number.as_bytes(),
            b"\n",
        ],
    )
}

/// The line on a fault of typing.
fn types_text(alloc: Global, of: &[u8], user: &[u8], err: TypeErr) -> Result<Vec<u8>, AllocError>
    ensures { IfOk result (λ text. text.items ≡ spec.types_text of.now user.now err) }
{
    match err {
        TypeErr::Unknown { at } => print_cause(alloc, of, b"unknown at ", at),
        TypeErr::Twice { at } => print_cause(alloc, of, b"twice at ", at),
        TypeErr::WrongType { at } => print_cause(alloc, of, b"wrong type at ", at),
        TypeErr::NotPrincipal { at } => print_cause(alloc, of, b"not principal at ", at),
        TypeErr::StillUsed { at, .. } => still_used_text(alloc, of, at, user),
        TypeErr::EmptyReason { at } => print_cause(alloc, of, b"empty reason at ", at),
        TypeErr::Expanded { at, count } => expanded_text(alloc, of, at, count),
        TypeErr::Crowded { at } => print_cause(alloc, of, b"crowded at ", at),
        TypeErr::OutOfMemory => join_pieces(alloc, &[of, b": out of memory\n"]),
    }
}

/// The line on the fault of a script.
fn script_types_text(alloc: Global, name: &[u8], fault: &Fault) -> Result<Vec<u8>, AllocError>
    ensures { IfOk result (λ text. text.items ≡ spec.script_types_text name.now fault.now) }
{
    let number = fault.command.to_string(alloc)?;
    let of = join_pieces(alloc, &[name, b": command ", number.as_bytes()])?;
    types_text(alloc, of.as_slice(), fault.user.as_slice(), fault.err)
}

/// The line on a refusal.
pub fn print_refusal(alloc: Global, refusal: &Refusal) -> Result<Vec<u8>, AllocError>
    ensures { IfOk result (λ text. text.items ≡ refusal_text refusal.now) }
{
    match refusal {
        Refusal::Usage => join_pieces(alloc, &[USAGE]),
        Refusal::Missing(name) => join_pieces(alloc, &[b"missing ", name.bytes(), b"\n"]),
        Refusal::TooLong(name) => join_pieces(alloc, &[b"too long ", name.bytes(), b"\n"]),
        Refusal::Text(name, err) => print_syntax(alloc, name.bytes(), *err),
        Refusal::SpecTypes(name, err) => types_text(alloc, name.bytes(), b"", *err),
        Refusal::ScriptTypes(name, fault) => script_types_text(alloc, name.bytes(), fault),
    }
}

/// The line that so many obligations hold.
fn accepted_text(alloc: Global, obligations: u64) -> Result<Vec<u8>, AllocError>
    ensures { IfOk result (λ text. text.items ≡ spec.accepted_text obligations) }
{
    let number = obligations.to_string(alloc)?;
    join_pieces(alloc, &[b"accepted obligations ", number.as_bytes(), b"\n"])
}

/// The report on the outcome of a script.
pub fn print_checked(alloc: Global, checked: &Checked) -> Result<Vec<u8>, AllocError>
    ensures { IfOk result (λ text. text.items
        ≡ outcome_text (script_of checked.now.script) (outcome_data checked.now.outcome)) }
{
    let t = &checked.script;
    match &checked.outcome {
        Outcome::Accepted { duties } => accepted_text(alloc, *duties),
        Outcome::Leak(w) => print_witness(alloc, w, t),
        Outcome::Undecided { duty, cycle } => print_undecided(alloc, *duty, cycle.as_slice(), t),
        Outcome::TooLarge { duty, terms, nodes } => {
            print_too_large(alloc, *duty, *terms, *nodes, t)
        }
    }
}

/// Where the first line of the text ends.
fn line_end(text: &[u8]) -> Option<usize>
    ensures { result ≡ position (λ b. b == 10) text.now }
{
    text.iter().position(|byte| *byte == b'\n')
}

/// The text up to the end of its first line.
fn first_line(text: &[u8]) -> &[u8]
    ensures { result.now ≡ answer.first_line text.now }
{
    match line_end(text) {
        Some(end) => &text[..=end],
        None => text,
    }
}

/// How many obligations are accepted, or the first line of the report.
fn found_text(alloc: Global, checked: &Checked) -> Result<Vec<u8>, AllocError>
    ensures { IfOk result (λ text. text.items ≡ answer.found_text
        (answer.checked_text checked.now) (outcome_data checked.now.outcome)) }
{
    if let Outcome::Accepted { duties } = &checked.outcome {
        let number = duties.to_string(alloc)?;
        return join_pieces(alloc, &[b"obligations ", number.as_bytes(), b" accepted\n"]);
    }
    let text = print_checked(alloc, checked)?;
    Vec::from_slice(alloc, first_line(text.as_slice()))
}

/// A line on each of the two generated scripts.
fn generated_text(alloc: Global, made: &Generated) -> Result<Vec<u8>, AllocError>
    ensures { IfOk result (λ text. text.items ≡ answer.generated_text made.now) }
{
    let commands = made.commands.to_string(alloc)?;
    let tightened = found_text(alloc, &made.tightened)?;
    let loosened = print_checked(alloc, &made.loosened)?;
    join_pieces(
        alloc,
        &[
            b"gen ",
            commands.as_bytes(),
            b" commands ",
            commands.as_bytes(),
            b" ",
            tightened.as_slice(),
            b"loosened ",
            first_line(loosened.as_slice()),
        ],
    )
}

/// The report of the answer.
pub fn report_of(alloc: Global, answer: &Answer) -> Result<Vec<u8>, AllocError>
    ensures { IfOk result (λ text. text.items ≡ text_of answer.now) }
{
    match answer {
        Answer::Refused(refusal) => print_refusal(alloc, refusal),
        Answer::Checked(checked) => print_checked(alloc, checked),
        Answer::Generated(made) => generated_text(alloc, made),
    }
}
