//! Values at the front of a text.

ghost use Rattle.std.specs.Prelude.{◌≡◌, ◌++◌, ◌∷◌, [], OnOk, length};
ghost use Rattle.data_back.specs.Back.{base_at, flag_at, id_at, ids_at, ids_from, some_at};
ghost use Rattle.data_back.specs.Back.{value_at, value_text_at};
ghost use Rattle.data_records.specs.Views.{value_data};
ghost use Rattle.data_back.specs.Reading.{Reads, ReadsAs};

use crate::{Scanner, Stop};
use data_records::Value;
use sqlite_items::{Boxed, Items};
use std::alloc::{AllocError, Global};
use text_ast::Txt;
use type_schema::{TBase, TTy};

/// The id at the front, with its `@`.
pub(crate) fn read_id(scanner: &mut Scanner<'_>) -> Result<u64, Stop>
    ensures { Reads (id_at scanner.old) result scanner.new }
{
    scanner.word(b"@")?;
    scanner.number()
}

/// The truth value at the front.
fn read_flag(scanner: &mut Scanner<'_>) -> Result<Value, Stop>
    ensures { ReadsAs value_data (flag_at scanner.old) result scanner.new }
{
    if scanner.takes(b"true") {
        return Ok(Value::Flag(true));
    }
    scanner.word(b"false")?;
    Ok(Value::Flag(false))
}

/// The text of a value at the front, between quotes.
fn read_text(alloc: Global, scanner: &mut Scanner<'_>) -> Result<Txt, Stop>
    ensures { Reads (value_text_at scanner.old) result scanner.new }
{
    let bytes = scanner.text(alloc)?;
    match Txt::make(bytes) {
        Some(text) => Ok(text),
        None => Err(Stop::Unlike),
    }
}

/// The value of a base type at the front.
fn read_base(alloc: Global, scanner: &mut Scanner<'_>, b: TBase) -> Result<Value, Stop>
    ensures { ReadsAs value_data (base_at b scanner.old) result scanner.new }
{
    match b {
        TBase::Bool => read_flag(scanner),
        TBase::Int => Ok(Value::Num(scanner.signed()?)),
        TBase::Text => Ok(Value::Str(read_text(alloc, scanner)?)),
        TBase::Id(_) => Ok(Value::Id(read_id(scanner)?)),
    }
}

/// Ids and the closing bracket.
fn read_ids(alloc: Global, scanner: &mut Scanner<'_>) -> Result<Items<u64>, Stop>
    ensures { Reads (ids_from [] (length scanner.old) scanner.old) result scanner.new }
{
    let mut ids = Items::new(alloc);
    for _turn in 0..scanner.len() {
        let id = read_id(scanner)?;
        ids.push(id)?;
        if !scanner.takes(b", ") {
            scanner.word(b"]")?;
            return Ok(ids);
        }
    }
    Err(Stop::Unlike)
}

/// The set of ids at the front.
fn read_set(alloc: Global, scanner: &mut Scanner<'_>) -> Result<Items<u64>, Stop>
    ensures { Reads (ids_at scanner.old) result scanner.new }
{
    scanner.word(b"[")?;
    if scanner.takes(b"]") {
        return Ok(Items::new(alloc));
    }
    read_ids(alloc, scanner)
}

/// The value of an option at the front.
fn read_some(alloc: Global, scanner: &mut Scanner<'_>, b: TBase) -> Result<Value, Stop>
    ensures { ReadsAs value_data (some_at b scanner.old) result scanner.new }
{
    scanner.word(b"some(")?;
    let inner = read_base(alloc, scanner, b)?;
    scanner.word(b")")?;
    Ok(Value::Just(Boxed::new(alloc, inner)?))
}

/// The value of a type at the front.
pub(crate) fn read_value(alloc: Global, scanner: &mut Scanner<'_>, ty: TTy) -> Result<Value, Stop>
    ensures { ReadsAs value_data (value_at ty scanner.old) result scanner.new }
{
    match ty {
        TTy::Plain(b) => read_base(alloc, scanner, b),
        TTy::Set(_) => Ok(Value::Ids(read_set(alloc, scanner)?)),
        TTy::Opt(b) => {
            if scanner.takes(b"none") {
                return Ok(Value::Nothing);
            }
            read_some(alloc, scanner, b)
        }
    }
}
