//! The texts that `recheck` prints.

ghost use Rattle.std.specs.Prelude.{◌≡◌, IfOk};
ghost use Rattle.app_certify.specs.Answer as spec_answer;
ghost use Rattle.app_certify.specs.Report as spec;
ghost use Rattle.type_schema.specs.SchemaViews.{script_of};

use crate::answer::{CertifyAnswer, CheckedCertificate};
use app_files::{join_pieces, print_refusal};
use certify_scripts::Rechecked;
use check_report::{print_too_large, print_undecided};
use check_scripts::models_of_cycle;
use duty_meaning::Duty;
use std::alloc::{AllocError, Global};
use type_schema::TScript;

/// The line on a certificate of so many obligations.
fn certified_text(alloc: Global, obligations: u64) -> Result<Vec<u8>, AllocError>
    ensures { IfOk result (λ text. text.items ≡ spec.certified_text obligations) }
{
    let number = obligations.to_string(alloc)?;
    join_pieces(
        alloc,
        &[b"certified obligations ", number.as_bytes(), b"\n"],
    )
}

/// The line on the first line of a certificate that is not the next one.
fn bad_line_text(alloc: Global, name: &[u8], line: u64) -> Result<Vec<u8>, AllocError>
    ensures { IfOk result (λ text. text.items ≡ spec.bad_line_text name.now line) }
{
    let number = line.to_string(alloc)?;
    join_pieces(alloc, &[name, b": bad line ", number.as_bytes(), b"\n"])
}

/// The report on an obligation that has no clauses, by a cycle of sorts.
fn cyclic_text(alloc: Global, duty: Duty, cycle: &[u32], t: &TScript) -> Result<Vec<u8>, AllocError>
    ensures { IfOk result (λ text. text.items
        ≡ spec.cyclic_text (script_of t.now) duty cycle.now) }
{
    let models = models_of_cycle(alloc, t, cycle)?;
    print_undecided(alloc, duty, models.as_slice(), t)
}

/// The report on what the check of a certificate found.
fn checked_text(alloc: Global, checked: &CheckedCertificate) -> Result<Vec<u8>, AllocError>
    ensures { IfOk result (λ text. text.items ≡ spec_answer.checked_text checked.now) }
{
    let t = &checked.script;
    match &checked.found {
        Rechecked::Certified { duties } => certified_text(alloc, *duties),
        Rechecked::BadLine { line } => bad_line_text(alloc, checked.cert.bytes(), *line),
        Rechecked::Cyclic { duty, cycle } => cyclic_text(alloc, *duty, cycle.as_slice(), t),
        Rechecked::TooLarge { duty, terms, nodes } => {
            print_too_large(alloc, *duty, *terms, *nodes, t)
        }
    }
}

/// The report of the answer.
pub fn certify_report_of(alloc: Global, answer: &CertifyAnswer) -> Result<Vec<u8>, AllocError>
    ensures { IfOk result (λ text. text.items ≡ spec_answer.text_of answer.now) }
{
    match answer {
        CertifyAnswer::Checked(checked) => checked_text(alloc, checked),
        CertifyAnswer::Refused(refusal) => print_refusal(alloc, refusal),
    }
}
