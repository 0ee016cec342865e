//! The texts of ids and values.

ghost use Rattle.std.specs.Prelude.{◌≡◌, ◌++◌, OnOk, codes};
ghost use Rattle.std.specs.Fmt.{decimal};
ghost use Rattle.std.specs.List.{flat_map};
ghost use Rattle.data_meaning.specs.Values as plain;
ghost use Rattle.data_print.specs.Texts.{id_text, value_text};
ghost use Rattle.data_records.specs.Views.{value_data};

use data_records::Value;
use itoa::Buffer;
use std::alloc::{AllocError, Global};
use text_print::Printer;

/// Writes a number.
pub fn write_decimal(out: &mut Printer, _alloc: Global, number: u64) -> Result<(), AllocError>
    ensures { OnOk result (out.new ≡ out.old ++ decimal number) }
{
    let mut digits = Buffer::new();
    out.put(digits.format(number).as_bytes())
}

/// Writes the id of a record.
pub fn write_id(out: &mut Printer, alloc: Global, id: u64) -> Result<(), AllocError>
    ensures { OnOk result (out.new ≡ out.old ++ id_text id) }
{
    out.put(b"@")?;
    write_decimal(out, alloc, id)?;
    Ok(())
}

/// Writes ids, each after a comma.
fn write_more_ids(out: &mut Printer, alloc: Global, ids: &[u64]) -> Result<(), AllocError>
    ensures { OnOk result (out.new
        ≡ out.old ++ flat_map (λ id. codes ", " ++ id_text id) ids.now) }
{
    for id in ids {
        out.put(b", ")?;
        write_id(out, alloc, *id)?;
    }
    Ok(())
}

/// Writes a set of ids.
fn write_ids(out: &mut Printer, alloc: Global, ids: &[u64]) -> Result<(), AllocError>
    ensures { OnOk result (out.new ≡ out.old ++ value_text (plain.Ids ids.now)) }
{
    out.put(b"[")?;
    if let Some((first, rest)) = ids.split_first() {
        write_id(out, alloc, *first)?;
        write_more_ids(out, alloc, rest)?;
    }
    out.put(b"]")?;
    Ok(())
}

/// Writes a value.
pub(crate) fn write_value(out: &mut Printer, alloc: Global, v: &Value) -> Result<(), AllocError>
    ensures { OnOk result (out.new ≡ out.old ++ value_text (value_data v.now)) }
{
    match v {
        Value::Flag(true) => out.put(b"true"),
        Value::Flag(false) => out.put(b"false"),
        Value::Num(n) => out.number(*n),
        Value::Str(text) => out.text(text.bytes()),
        Value::Id(id) => write_id(out, alloc, *id),
        Value::Ids(ids) => write_ids(out, alloc, ids.as_slice()),
        Value::Nothing => out.put(b"none"),
        Value::Just(inner) => {
            out.put(b"some(")?;
            write_value(out, alloc, inner.get())?;
            out.put(b")")?;
            Ok(())
        }
    }
}
