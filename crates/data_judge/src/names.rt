//! What names name.

ghost use Rattle.std.specs.Prelude.{◌≡◌, map, option_copied};
ghost use Rattle.std.specs.List.{find, list_any};
ghost use Rattle.std.specs.Option.{option_map};
ghost use Rattle.std.specs.Str.{bytes_eq};
ghost use Rattle.data_judge.specs.Faults as spec;
ghost use Rattle.data_judge.specs.InOrder as order;
ghost use Rattle.data_judge.specs.InOrder.{AreApart};
ghost use Rattle.type_schema.specs.SchemaViews.{field_info_of, model_info_of};

use data_tree::{FieldLit, TableLit};
use type_schema::{FieldInfo, ModelInfo};

/// Whether two names are the same bytes.
pub(crate) fn same_name(a: &[u8], b: &[u8]) -> bool
    ensures { result ≡ bytes_eq a.now b.now }
{
    a == b
}

/// The first field of that name.
fn field_among<'s>(fields: &'s [FieldInfo], name: &[u8]) -> Option<&'s FieldInfo>
    ensures { option_copied result ≡ find (λ f. bytes_eq f.name name.now) fields.now }
{
    fields.iter().find(|f| same_name(f.name.bytes(), name))
}

/// The field of a model that the name names.
pub(crate) fn field_named<'s>(fields: &'s [FieldInfo], name: &[u8]) -> Option<&'s FieldInfo>
    ensures { option_map field_info_of (option_copied result)
        ≡ spec.field_named (map field_info_of fields.now) name.now }
{
    field_among(fields, name)
}

/// The field of a model that the name names, where no two have one name. It is looked for at this
/// place first.
pub(crate) fn field_near<'s>(
    fields: &'s [FieldInfo],
    place: usize,
    name: &[u8],
) -> Option<&'s FieldInfo>
    requires { AreApart (map field_info_of fields.now) }
    ensures { option_map field_info_of (option_copied result)
        ≡ spec.field_named (map field_info_of fields.now) name.now }
{
    match fields.get(place) {
        Some(info) if same_name(info.name.bytes(), name) => Some(info),
        _ => field_named(fields, name),
    }
}

/// The first model of that name.
fn model_among<'s>(models: &'s [ModelInfo], name: &[u8]) -> Option<&'s ModelInfo>
    ensures { option_copied result ≡ find (λ m. bytes_eq m.name name.now) models.now }
{
    models.iter().find(|m| same_name(m.name.bytes(), name))
}

/// The model that the name names.
pub(crate) fn model_named<'s>(models: &'s [ModelInfo], name: &[u8]) -> Option<&'s ModelInfo>
    ensures { option_map model_info_of (option_copied result)
        ≡ spec.model_named (map model_info_of models.now) name.now }
{
    model_among(models, name)
}

/// The field of the name among those that are written.
pub(crate) fn field_written<'s>(fields: &'s [FieldLit], name: &[u8]) -> Option<&'s FieldLit>
    ensures { option_copied result ≡ find (λ w. bytes_eq w.name.name name.now) fields.now }
{
    fields.iter().find(|w| same_name(w.name.name.bytes(), name))
}

/// Whether the fields of the model are written, each once and in their order, as in a text that was
/// printed: then no name has to be sought.
pub(crate) fn are_in_order(fields: &[FieldInfo], ws: &[FieldLit]) -> bool
    ensures { result ≡ order.are_in_order (map field_info_of fields.now) ws.now }
{
    match fields {
        [] => ws.is_empty(),
        [info, fields @ ..] => match ws {
            [] => false,
            [w, ws @ ..] => {
                same_name(w.name.name.bytes(), info.name.bytes()) && are_in_order(fields, ws)
            }
        },
    }
}

/// Whether a field of the name is written.
pub(crate) fn has_field(fields: &[FieldLit], name: &[u8]) -> bool
    ensures { result ≡ list_any (λ w. bytes_eq w.name.name name.now) fields.now }
{
    fields.iter().any(|w| same_name(w.name.name.bytes(), name))
}

/// The table of the name among those that are written.
pub(crate) fn table_written<'s>(tables: &'s [TableLit], name: &[u8]) -> Option<&'s TableLit>
    ensures { option_copied result ≡ find (λ t. bytes_eq t.name.name name.now) tables.now }
{
    tables.iter().find(|t| same_name(t.name.name.bytes(), name))
}

/// Whether a table of the name is written.
pub(crate) fn has_table(tables: &[TableLit], name: &[u8]) -> bool
    ensures { result ≡ list_any (λ t. bytes_eq t.name.name name.now) tables.now }
{
    tables.iter().any(|t| same_name(t.name.name.bytes(), name))
}
