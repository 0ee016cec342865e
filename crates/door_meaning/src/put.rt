//! Replies, put out.

ghost use Rattle.std.specs.Prelude.{◌≡◌, ◌≤◌, false, IfErr, OnErr, OnOk};
ghost use Rattle.app_flow.specs.Faults.{Rose};
ghost use Rattle.app_flow.specs.Told.{Appends, AppendsFront};
ghost use Rattle.door_meaning.specs.Replies as text;
ghost use Rattle.door_meaning.specs.Replies.{reply_data, reply_text, tells_change};
ghost use Rattle.door_meaning.specs.declared.put.PutErr.TheVariants.{OutOfMemory};

use crate::print::print_reply;
use crate::reply::Reply;
use app_flow::{Sink, put_all};
use arrayvec::ArrayString;
use itoa::Buffer;
use std::alloc::{AllocError, Global};
use thiserror::Error;

/// Why a reply was not put out.
#[derive(Clone, Copy, Debug, PartialEq, Eq, Error)]
pub enum PutErr {
    /// The output met a fault, which it counted, and may hold a front of the reply.
    #[error("a fault of the output")]
    WriteFault,
    /// There was no memory for the text, and nothing of it was put out.
    #[error("out of memory")]
    OutOfMemory,
}

impl From<AllocError> for PutErr {
    ghost from_gives = { λ _ err. err ≡ OutOfMemory };

    fn from(_error: AllocError) -> PutErr {
        PutErr::OutOfMemory
    }
}

/// Puts out a text.
fn put_text<W: Sink>(line: &[u8], out: &mut W) -> Result<(), PutErr>
    ensures done { OnOk result (Appends (W.told out.old) (W.told out.new) line.now) }
    ensures cut { OnErr result (AppendsFront (W.told out.old) (W.told out.new) line.now) }
    ensures fault { IfErr result (λ err. err ≡ PutErr.WriteFault) }
    ensures counted { OnErr result (Rose (W.faults out.old) (W.faults out.new)) }
    ensures never_falls { W.faults out.old ≤ W.faults out.new }
{
    match put_all(out, line) {
        Ok(()) => Ok(()),
        Err(_) => Err(PutErr::WriteFault),
    }
}

/// Puts out that a record was made. It takes no memory.
fn put_new<W: Sink>(id: u64, out: &mut W) -> Result<(), PutErr>
    ensures done { OnOk result (Appends (W.told out.old) (W.told out.new)
        (reply_text (text.New id))) }
    ensures cut { OnErr result (AppendsFront (W.told out.old) (W.told out.new)
        (reply_text (text.New id))) }
    ensures fault { IfErr result (λ err. err ≡ PutErr.WriteFault) }
    ensures counted { OnErr result (Rose (W.faults out.old) (W.faults out.new)) }
    ensures never_falls { W.faults out.old ≤ W.faults out.new }
{
    let mut digits = Buffer::new();
    let mut line = ArrayString::<64>::new();
    line.push_str("ok @");
    line.push_str(digits.format(id));
    line.push_str("\n");
    put_text(line.as_bytes(), out)
}

/// Puts out the text of a reply that changes nothing that is stored.
fn put_printed<W: Sink>(alloc: Global, reply: &Reply, out: &mut W) -> Result<(), PutErr>
    ensures done { OnOk result (Appends (W.told out.old) (W.told out.new)
        (reply_text (reply_data reply.now))) }
    ensures cut { OnErr result (AppendsFront (W.told out.old) (W.told out.new)
        (reply_text (reply_data reply.now))) }
    ensures untouched { result ≡ Err PutErr.OutOfMemory → out.new ≡ out.old }
    ensures counted { result ≡ Err PutErr.WriteFault → Rose (W.faults out.old) (W.faults out.new) }
    ensures never_falls { W.faults out.old ≤ W.faults out.new }
{
    let line = print_reply(alloc, reply)?;
    put_text(line.as_slice(), out)
}

/// Puts out the text of a reply.
///
/// A reply that may tell of a change of what is stored takes no memory. Each other one takes it before
/// anything is put out.
pub fn put_reply<W: Sink>(alloc: Global, reply: &Reply, out: &mut W) -> Result<(), PutErr>
    ensures done { OnOk result (Appends (W.told out.old) (W.told out.new)
        (reply_text (reply_data reply.now))) }
    ensures cut { OnErr result (AppendsFront (W.told out.old) (W.told out.new)
        (reply_text (reply_data reply.now))) }
    ensures untouched { result ≡ Err PutErr.OutOfMemory → out.new ≡ out.old }
    ensures memory { result ≡ Err PutErr.OutOfMemory →
        tells_change (reply_data reply.now) ≡ false }
    ensures counted { result ≡ Err PutErr.WriteFault → Rose (W.faults out.old) (W.faults out.new) }
    ensures never_falls { W.faults out.old ≤ W.faults out.new }
{
    match reply {
        Reply::Done => put_text(b"ok\n", out),
        Reply::New(id) => put_new(*id, out),
        Reply::Script(report) => put_text(report.as_slice(), out),
        Reply::Version(_)
        | Reply::Val(_)
        | Reply::Ids(_)
        | Reply::Quiet
        | Reply::Denied(_)
        | Reply::NoRecord
        | Reply::Dangling { .. }
        | Reply::Referenced { .. }
        | Reply::WrongShape { .. }
        | Reply::Stale { .. }
        | Reply::NoSession
        | Reply::SessionTaken
        | Reply::Full { .. }
        | Reply::IdsSpent
        | Reply::BadLine { .. }
        | Reply::Unknown { .. }
        | Reply::NotPrincipal => put_printed(alloc, reply, out),
    }
}
