//! Names, with the number of the command that adds what they name.

ghost use Rattle.std.specs.Prelude.{◌≡◌, ◌==◌, ◌++◌, [], IfOk, OnOk, map, option_copied};
ghost use Rattle.std.specs.List.{find, flat_map};
ghost use Rattle.std.specs.Option.{option_map_or};
ghost use Rattle.type_schema.specs.Schema.{field_of, model_of};
ghost use Rattle.type_schema.specs.SchemaViews.{command_of, field_info_of, schema_of};
ghost use Rattle.type_schema.specs.SchemaViews.{script_of};
ghost use Rattle.type_schema.specs.Script.{schema_at};
ghost use Rattle.check_witness.specs.Printed.{field_text, marked, model_text, static_text};
ghost use Rattle.check_witness.specs.Printed.{statics_by};

use crate::added::{added_static, before_model, before_static};
use data_print::write_decimal;
use std::alloc::{AllocError, Global};
use text_print::Printer;
use type_schema::{
    FieldInfo, FieldNo, ModelInfo, ModelNo, Schema, StaticInfo, StaticNo, TCommand, TScript,
};

/// The model of this number.
fn model_in(models: &[ModelInfo], m: ModelNo) -> Option<&ModelInfo>
    ensures { option_copied result ≡ find (λ info. info.number == m) models.now }
{
    models.iter().find(|info| info.number == m)
}

/// The field of this number.
fn field_in(fields: &[FieldInfo], f: FieldNo) -> Option<&FieldInfo>
    ensures { option_copied result ≡ find (λ info. info.number == f) fields.now }
{
    fields.iter().find(|info| info.number == f)
}

/// The static of this number.
fn static_in(statics: &[StaticInfo], n: StaticNo) -> Option<&StaticInfo>
    ensures { option_copied result ≡ find (λ info. info.number == n) statics.now }
{
    statics.iter().find(|info| info.number == n)
}

/// The name of a model of a schema, empty where there is none.
fn model_name(s: &Schema, m: ModelNo) -> &[u8]
    ensures { result.now ≡ option_map_or (λ info. info.name) (model_of (schema_of s.now) m) [] }
{
    match model_in(s.models.as_slice(), m) {
        Some(info) => info.name.bytes(),
        None => b"",
    }
}

/// The name of a field of a model, empty where there is none.
fn name_in(info: &ModelInfo, f: FieldNo) -> &[u8]
    ensures { result.now ≡ option_map_or (λ field. field.name)
        (find (λ field. field.number == f) (map field_info_of info.now.fields)) [] }
{
    match field_in(info.fields.as_slice(), f) {
        Some(field) => field.name.bytes(),
        None => b"",
    }
}

/// The name of a field of a schema, empty where there is none.
fn field_name(s: &Schema, m: ModelNo, f: FieldNo) -> &[u8]
    ensures { result.now ≡ option_map_or (λ info. info.name) (field_of (schema_of s.now) m f) [] }
{
    match model_in(s.models.as_slice(), m) {
        Some(info) => name_in(info, f),
        None => b"",
    }
}

/// The name of a static that a command adds, empty where there is none.
fn added_name(commands: &[TCommand], n: StaticNo) -> &[u8]
    ensures { result.now ≡ option_map_or (λ info. info.name) (find (λ info. info.number == n)
        (flat_map statics_by (map command_of commands.now))) [] }
{
    match added_static(commands, n) {
        Some(info) => info.name.bytes(),
        None => b"",
    }
}

/// The name of a static of the schema of start databases, or of one that a command adds, empty
/// where there is none.
fn static_name(t: &TScript, n: StaticNo) -> &[u8]
    ensures { result.now ≡ option_map_or (λ info. info.name) (find (λ info. info.number == n)
        ((script_of t.now).start.statics ++ flat_map statics_by (script_of t.now).commands)) [] }
{
    match static_in(t.start.statics.as_slice(), n) {
        Some(info) => info.name.bytes(),
        None => added_name(t.commands.as_slice(), n),
    }
}

/// The schema after so many commands.
fn schema_after(t: &TScript, k: u32) -> &Schema
    ensures { schema_of result.now ≡ schema_at (script_of t.now) k }
{
    match t.schemas.get(k as usize) {
        Some(s) => s,
        None => &t.start,
    }
}

/// Writes a name, and behind it the number of the command that adds what it names, if one does.
fn write_marked(
    out: &mut Printer,
    alloc: Global,
    name: &[u8],
    before: Option<usize>,
) -> Result<(), AllocError>
    ensures { OnOk result (out.new ≡ out.old ++ marked name.now before) }
{
    out.put(name)?;
    let Some(before) = before else {
        return Ok(());
    };
    let Some(number) = before.checked_add(1) else {
        return Err(AllocError);
    };
    out.put(b"@")?;
    write_decimal(out, alloc, number as u64)?;
    Ok(())
}

/// Writes the name of a model.
pub(crate) fn write_model(
    out: &mut Printer,
    alloc: Global,
    t: &TScript,
    m: ModelNo,
) -> Result<(), AllocError>
    ensures { OnOk result (out.new ≡ out.old ++ model_text (script_of t.now) m) }
{
    let before = before_model(t.commands.as_slice(), m);
    write_marked(out, alloc, model_name(&t.start, m), before)?;
    Ok(())
}

/// The name of a model, as it is written.
pub(crate) fn marked_model(alloc: Global, t: &TScript, m: ModelNo) -> Result<Vec<u8>, AllocError>
    ensures { IfOk result (λ name. name.items ≡ model_text (script_of t.now) m) }
{
    let mut out = Printer::new(alloc);
    write_model(&mut out, alloc, t, m)?;
    Ok(out.into_bytes())
}

/// Writes the name of a static.
pub(crate) fn write_static(
    out: &mut Printer,
    alloc: Global,
    t: &TScript,
    n: StaticNo,
) -> Result<(), AllocError>
    ensures { OnOk result (out.new ≡ out.old ++ static_text (script_of t.now) n) }
{
    let before = before_static(t.commands.as_slice(), n);
    write_marked(out, alloc, static_name(t, n), before)?;
    Ok(())
}

/// Writes the name that a field has after so many commands.
pub(crate) fn write_field(
    out: &mut Printer,
    t: &TScript,
    k: u32,
    m: ModelNo,
    f: FieldNo,
) -> Result<(), AllocError>
    ensures { OnOk result (out.new ≡ out.old ++ field_text (script_of t.now) k m f) }
{
    out.put(field_name(schema_after(t, k), m, f))
}
