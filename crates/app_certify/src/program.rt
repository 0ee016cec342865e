//! The commands on certificates as one call.

ghost use Rattle.app_certify.specs.Run.{IsCertifyRun};
ghost use Rattle.app_certify.specs.Seen.{command_seen};

use crate::prove::run_prove;
use crate::recheck::run_recheck;
use crate::words::CertifyCommand;
use app_files::Status;
use app_flow::{Shelf, Sink};
use std::alloc::Global;

/// Carries out a command on certificates.
///
/// `prove SPEC SCRIPT` checks the script as `check SPEC SCRIPT` does. Where it is accepted, its
/// certificate is written in the place of the report, obligation by obligation, so that memory goes
/// with the largest part; else what was found is. `recheck SPEC SCRIPT CERT` checks the third file
/// as a certificate of the script, line by line and without a search, and writes how many
/// obligations are certified, or the first bad line.
///
/// The files are taken from `shelf`, what is written is put into `out`, and `Status` says what each
/// status means. After a fault of the output or for want of memory a front of the certificate may
/// have been put.
pub fn run_certify<F: Shelf, W: Sink>(
    alloc: Global,
    command: CertifyCommand<'_>,
    shelf: &mut F,
    out: &mut W,
) -> Status
    ensures { IsCertifyRun F.told F.calls F.faults W.told W.faults (command_seen command.entry)
        shelf.old shelf.new out.old out.new result }
{
    match command {
        CertifyCommand::Prove(spec, script) => run_prove(alloc, spec, script, shelf, out),
        CertifyCommand::Recheck(spec, script, cert) => {
            run_recheck(alloc, spec, script, cert, shelf, out)
        }
    }
}
