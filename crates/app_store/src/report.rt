//! The texts that commands over the store print.

ghost use Rattle.std.specs.Prelude.{◌≡◌, IfOk};
ghost use Rattle.app_store.specs.Answer.{text_of};
ghost use Rattle.app_store.specs.Report as spec;

use crate::answer::StoreAnswer;
use crate::stop::StoreRefusal;
use app_files::{join_pieces, print_cause, print_checked, print_refusal, print_syntax};
use data_read::ReadErr;
use data_records::Limit;
use std::alloc::{AllocError, Global};
use store_show::print_stored;

/// The line on a version that was stored.
fn ok_version_text(alloc: Global, version: u64) -> Result<Vec<u8>, AllocError>
    ensures { IfOk result (λ text. text.items ≡ spec.ok_version_text version) }
{
    let number = version.to_string(alloc)?;
    join_pieces(alloc, &[b"ok version ", number.as_bytes(), b"\n"])
}

/// The line on a script that was carried out.
pub fn print_applied(alloc: Global, obligations: u64, version: u64) -> Result<Vec<u8>, AllocError>
    ensures { IfOk result (λ text. text.items ≡ spec.applied_text obligations version) }
{
    let count = obligations.to_string(alloc)?;
    let number = version.to_string(alloc)?;
    join_pieces(
        alloc,
        &[
            b"applied obligations ",
            count.as_bytes(),
            b" version ",
            number.as_bytes(),
            b"\n",
        ],
    )
}

/// The line on a text that writes no database.
fn data_text(alloc: Global, name: &[u8], err: ReadErr) -> Result<Vec<u8>, AllocError>
    ensures { IfOk result (λ text. text.items ≡ spec.data_text name.now err) }
{
    match err {
        ReadErr::Syntax(err) => print_syntax(alloc, name, err),
        ReadErr::Unknown { at } => print_cause(alloc, name, b"unknown at ", at),
        ReadErr::Absent { at } => print_cause(alloc, name, b"absent at ", at),
        ReadErr::Twice { at } => print_cause(alloc, name, b"twice at ", at),
        ReadErr::WrongShape { at } => print_cause(alloc, name, b"wrong shape at ", at),
        ReadErr::BadId { at } => print_cause(alloc, name, b"bad id at ", at),
        ReadErr::Dangling { at } => print_cause(alloc, name, b"dangling at ", at),
        ReadErr::Full {
            what: Limit::Records,
        } => join_pieces(alloc, &[name, b": full records\n"]),
        ReadErr::Full {
            what: Limit::Weight,
        } => join_pieces(alloc, &[name, b": full weight\n"]),
        ReadErr::OutOfMemory => join_pieces(alloc, &[name, b": out of memory\n"]),
    }
}

/// The line on a refusal.
fn refusal_text(alloc: Global, refusal: &StoreRefusal) -> Result<Vec<u8>, AllocError>
    ensures { IfOk result (λ text. text.items ≡ spec.store_refusal_text refusal.now) }
{
    match refusal {
        StoreRefusal::IsSet => join_pieces(alloc, &[b"store is set\n"]),
        StoreRefusal::IsEmpty => join_pieces(alloc, &[b"store is empty\n"]),
        StoreRefusal::IsSpent => join_pieces(alloc, &[b"version is spent\n"]),
        StoreRefusal::Data(name, err) => data_text(alloc, name.bytes(), *err),
    }
}

/// The report of the answer.
pub fn store_report_of(alloc: Global, answer: &StoreAnswer) -> Result<Vec<u8>, AllocError>
    ensures { IfOk result (λ text. text.items ≡ text_of answer.now) }
{
    match answer {
        StoreAnswer::Initialised(after) => ok_version_text(alloc, after.version),
        StoreAnswer::Checked(checked) => print_checked(alloc, checked),
        StoreAnswer::Applied(obligations, after) => {
            print_applied(alloc, *obligations, after.version)
        }
        StoreAnswer::Shown(held) => print_stored(alloc, held),
        StoreAnswer::FilesRefused(refusal) => print_refusal(alloc, refusal),
        StoreAnswer::Refused(refusal) => refusal_text(alloc, refusal),
    }
}
