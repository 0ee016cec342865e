//! Replies as texts.

ghost use Rattle.std.specs.Prelude.{◌≡◌, ◌++◌, IfOk, OnOk, codes};
ghost use Rattle.std.specs.Fmt.{decimal};
ghost use Rattle.std.specs.List.{flat_map};
ghost use Rattle.data_meaning.specs.Values as plain;
ghost use Rattle.data_print.specs.Texts as spec;
ghost use Rattle.data_print.specs.Texts.{id_text};
ghost use Rattle.data_records.specs.Views.{value_data};
ghost use Rattle.door_meaning.specs.Replies as text;
ghost use Rattle.door_meaning.specs.Replies.{reply_data, reply_text};

use crate::reply::{Denial, Fullness, Reply};
use app_files::join_pieces;
use data_print::write_id;
use data_records::Value;
use std::alloc::{AllocError, Global};
use text_print::Printer;
use type_schema::Right;

/// Writes ids, each after a comma.
fn write_more_ids(out: &mut Printer, alloc: Global, ids: &[u64]) -> Result<(), AllocError>
    ensures { OnOk result (out.new
        ≡ out.old ++ flat_map (λ id. codes ", " ++ id_text id) ids.now) }
{
    for id in ids {
        out.put(b", ")?;
        write_id(out, alloc, *id)?;
    }
    Ok(())
}

/// Writes ids in brackets.
fn write_ids(out: &mut Printer, alloc: Global, ids: &[u64]) -> Result<(), AllocError>
    ensures { OnOk result (out.new ≡ out.old ++ text.ids_text ids.now) }
{
    out.put(b"[")?;
    if let Some((first, rest)) = ids.split_first() {
        write_id(out, alloc, *first)?;
        write_more_ids(out, alloc, rest)?;
    }
    out.put(b"]")?;
    Ok(())
}

/// Writes a value.
fn write_value(out: &mut Printer, alloc: Global, v: &Value) -> Result<(), AllocError>
    ensures { OnOk result (out.new ≡ out.old ++ spec.value_text (value_data v.now)) }
{
    match v {
        Value::Flag(true) => out.put(b"true"),
        Value::Flag(false) => out.put(b"false"),
        Value::Num(n) => out.number(*n),
        Value::Str(text) => out.text(text.bytes()),
        Value::Id(id) => write_id(out, alloc, *id),
        Value::Ids(ids) => write_ids(out, alloc, ids.as_slice()),
        Value::Nothing => out.put(b"none"),
        Value::Just(inner) => {
            out.put(b"some(")?;
            write_value(out, alloc, inner.get())?;
            out.put(b")")?;
            Ok(())
        }
    }
}

/// `ok` and a value.
fn value_line(alloc: Global, v: &Value) -> Result<Vec<u8>, AllocError>
    ensures { IfOk result (λ line. line.items ≡ reply_text (text.Val (value_data v.now))) }
{
    let mut out = Printer::new(alloc);
    write_value(&mut out, alloc, v)?;
    let value = out.into_bytes();
    join_pieces(alloc, &[b"ok ", value.as_slice(), b"\n"])
}

/// `ok` and ids in brackets.
fn ids_line(alloc: Global, ids: &[u64]) -> Result<Vec<u8>, AllocError>
    ensures { IfOk result (λ line. line.items ≡ reply_text (text.Ids ids.now)) }
{
    let mut out = Printer::new(alloc);
    write_ids(&mut out, alloc, ids)?;
    let list = out.into_bytes();
    join_pieces(alloc, &[b"ok ", list.as_slice(), b"\n"])
}

/// The name of a right.
fn right_word(right: Right) -> &'static [u8]
    ensures { result.now ≡ text.right_text right }
{
    match right {
        Right::Read => b"read",
        Right::Write => b"write",
        Right::Create => b"create",
        Right::Delete => b"delete",
    }
}

/// What is not allowed.
fn denial_line(alloc: Global, what: &Denial) -> Result<Vec<u8>, AllocError>
    ensures { IfOk result (λ line. line.items ≡ reply_text (text.Denied what.now)) }
{
    match what {
        Denial::Field(name) => join_pieces(alloc, &[b"denied ", name.bytes(), b"\n"]),
        Denial::Right(right) => join_pieces(alloc, &[b"denied ", right_word(*right), b"\n"]),
    }
}

/// What there may be no more of.
fn full_line(alloc: Global, what: Fullness) -> Result<Vec<u8>, AllocError>
    ensures { IfOk result (λ line. line.items ≡ reply_text (text.Full what)) }
{
    let word: &[u8] = match what {
        Fullness::Records => b"full records\n",
        Fullness::Weight => b"full weight\n",
        Fullness::Sessions => b"full sessions\n",
    };
    join_pieces(alloc, &[word])
}

/// Words, a number and the end of the line.
fn number_line(alloc: Global, words: &[u8], number: u64) -> Result<Vec<u8>, AllocError>
    ensures { IfOk result (λ line. line.items ≡ words.now ++ (decimal number ++ codes "\n")) }
{
    let digits = number.to_string(alloc)?;
    join_pieces(alloc, &[words, digits.as_bytes(), b"\n"])
}

/// An id in a field, that names no record.
fn dangling_line(alloc: Global, field: &[u8], id: u64) -> Result<Vec<u8>, AllocError>
    ensures { IfOk result (λ line. line.items ≡ reply_text (text.Dangling field.now id)) }
{
    let digits = id.to_string(alloc)?;
    join_pieces(
        alloc,
        &[b"dangling ", field, b" @", digits.as_bytes(), b"\n"],
    )
}

/// A record with a field that names another one.
fn referenced_line(
    alloc: Global,
    model: &[u8],
    id: u64,
    field: &[u8],
) -> Result<Vec<u8>, AllocError>
    ensures { IfOk result (λ line. line.items
        ≡ reply_text (text.Referenced model.now id field.now)) }
{
    let digits = id.to_string(alloc)?;
    join_pieces(
        alloc,
        &[
            b"referenced ",
            model,
            b" @",
            digits.as_bytes(),
            b" ",
            field,
            b"\n",
        ],
    )
}

/// The versions of a session and of the door.
fn stale_line(alloc: Global, session: u64, door: u64) -> Result<Vec<u8>, AllocError>
    ensures { IfOk result (λ line. line.items ≡ reply_text (text.Stale session door)) }
{
    let old = session.to_string(alloc)?;
    let new = door.to_string(alloc)?;
    join_pieces(
        alloc,
        &[b"stale ", old.as_bytes(), b" ", new.as_bytes(), b"\n"],
    )
}

/// The text of a reply.
pub fn print_reply(alloc: Global, reply: &Reply) -> Result<Vec<u8>, AllocError>
    ensures { IfOk result (λ line. line.items ≡ reply_text (reply_data reply.now)) }
{
    match reply {
        Reply::Done => join_pieces(alloc, &[b"ok\n"]),
        Reply::Version(version) => number_line(alloc, b"ok version ", *version),
        Reply::Val(v) => value_line(alloc, v),
        Reply::New(id) => number_line(alloc, b"ok @", *id),
        Reply::Ids(ids) => ids_line(alloc, ids.as_slice()),
        Reply::Quiet => Ok(Vec::new(alloc)),
        Reply::Denied(what) => denial_line(alloc, what),
        Reply::NoRecord => join_pieces(alloc, &[b"no record\n"]),
        Reply::Dangling { field, id } => dangling_line(alloc, field.bytes(), *id),
        Reply::Referenced { model, id, field } => {
            referenced_line(alloc, model.bytes(), *id, field.bytes())
        }
        Reply::WrongShape { field } => {
            join_pieces(alloc, &[b"wrong shape ", field.bytes(), b"\n"])
        }
        Reply::Stale { session, door } => stale_line(alloc, *session, *door),
        Reply::NoSession => join_pieces(alloc, &[b"no session\n"]),
        Reply::SessionTaken => join_pieces(alloc, &[b"taken\n"]),
        Reply::Full { what } => full_line(alloc, *what),
        Reply::IdsSpent => join_pieces(alloc, &[b"ids spent\n"]),
        Reply::BadLine { at } => number_line(alloc, b"bad line ", u64::from(*at)),
        Reply::Script(report) => Vec::from_slice(alloc, report.as_slice()),
        Reply::Unknown { at } => number_line(alloc, b"unknown ", u64::from(*at)),
        Reply::NotPrincipal => join_pieces(alloc, &[b"not principal\n"]),
    }
}
