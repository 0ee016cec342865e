//! The numbers that models and fields have in the schema numbered anew: their places in its order.

ghost use Rattle.std.specs.Prelude.{◌≡◌, ◌==◌, ◌+◌, ◌<◌, ◌^◌, length, map, position};
ghost use Rattle.data_records.specs.Renumbered.{field_count, new_field, new_model, place_of_field};
ghost use Rattle.type_schema.specs.SchemaViews.{field_info_of, model_info_of};

use type_schema::{FieldInfo, FieldNo, ModelInfo, ModelNo};

/// The place of a model.
fn model_place(models: &[ModelInfo], m: ModelNo) -> Option<usize>
    ensures { result ≡ position (λ info. info.number == m) models.now }
{
    models.iter().position(|info| info.number == m)
}

/// The new number of a model.
pub(crate) fn new_model(models: &[ModelInfo], m: ModelNo) -> ModelNo
    requires { length models.now < 2 ^ 32 }
    ensures { result ≡ new_model (map model_info_of models.now) m }
{
    match model_place(models, m) {
        Some(place) => place as u32,
        None => models.len() as u32,
    }
}

/// The place of a field.
fn field_place(fields: &[FieldInfo], f: FieldNo) -> Option<usize>
    ensures { result ≡ position (λ info. info.number == f) fields.now }
{
    fields.iter().position(|info| info.number == f)
}

/// The new number of one of these fields, before which so many stand.
fn new_field_among(before: u32, fields: &[FieldInfo], f: FieldNo) -> FieldNo
    requires { before + length fields.now < 2 ^ 32 }
    ensures { result ≡ before + place_of_field (map field_info_of fields.now) f }
{
    match field_place(fields, f) {
        Some(place) => before + place as u32,
        None => before + fields.len() as u32,
    }
}

/// The new number of a field of a model, where so many fields stand before these models.
pub(crate) fn new_field(before: u32, models: &[ModelInfo], m: ModelNo, f: FieldNo) -> FieldNo
    requires { before + field_count (map model_info_of models.now) < 2 ^ 32 }
    ensures { result ≡ before + new_field (map model_info_of models.now) m f }
{
    let Some((info, models)) = models.split_first() else {
        return before;
    };
    let fields = info.fields.as_slice();
    if info.number == m {
        return new_field_among(before, fields, f);
    }
    new_field(before + fields.len() as u32, models, m, f)
}
