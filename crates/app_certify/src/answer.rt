//! What `recheck` answers.

ghost use Rattle.std.specs.Prelude.{◌≡◌};
ghost use Rattle.app_files.specs.Ends.{IsCutOff};
ghost use Rattle.app_certify.specs.Answer as spec;

use app_files::{Refusal, Status};
use certify_scripts::Rechecked;
use text_ast::Txt;
use type_schema::TScript;

/// What the check of a certificate found.
#[derive(Drop)]
pub struct CheckedCertificate {
    /// The script, typed over its specification.
    pub script: TScript,
    /// The name of the certificate.
    pub cert: Txt,
    /// What was found.
    pub found: Rechecked,
}

/// What `recheck` answers.
#[derive(Drop)]
pub enum CertifyAnswer {
    /// The text was checked as a certificate of the script.
    Checked(CheckedCertificate),
    /// A file is refused.
    Refused(Refusal),
}

impl CertifyAnswer {
    /// The status that goes with the answer.
    pub fn status(&self) -> Status
        ensures found { result ≡ spec.status_of self.now }
        ensures decided { ¬ (IsCutOff result) }
    {
        match self {
            CertifyAnswer::Checked(checked) => match checked.found {
                Rechecked::Certified { .. } => Status::Done,
                Rechecked::BadLine { .. } => Status::BadCertificate,
                Rechecked::Cyclic { .. } => Status::Undecided,
                Rechecked::TooLarge { .. } => Status::TooLarge,
            },
            CertifyAnswer::Refused(refusal) => refusal.status(),
        }
    }
}
