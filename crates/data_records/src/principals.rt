//! Principals of a schema.

ghost use Rattle.std.specs.Prelude.{◌≡◌, ◌==◌, is_some, option_copied};
ghost use Rattle.std.specs.List.{find};
ghost use Rattle.type_schema.specs.Schema.{is_principal_model, static_of};
ghost use Rattle.type_schema.specs.SchemaViews.{schema_of};

use type_schema::{ModelInfo, ModelNo, Schema, StaticInfo, StaticNo};

/// The static principal of the number.
fn static_in(statics: &[StaticInfo], n: StaticNo) -> Option<&StaticInfo>
    ensures { option_copied result ≡ find (λ info. info.number == n) statics.now }
{
    statics.iter().find(|info| info.number == n)
}

/// The model of the number.
fn model_in(models: &[ModelInfo], m: ModelNo) -> Option<&ModelInfo>
    ensures { option_copied result ≡ find (λ info. info.number == m) models.now }
{
    models.iter().find(|info| info.number == m)
}

/// Whether the schema has the static principal.
pub(crate) fn has_static(s: &Schema, n: StaticNo) -> bool
    ensures { result ≡ is_some (static_of (schema_of s.now) n) }
{
    static_in(s.statics.as_slice(), n).is_some()
}

/// Whether the schema has the model and marks it as one of principals.
pub(crate) fn is_marked(s: &Schema, m: ModelNo) -> bool
    ensures { result ≡ is_principal_model (schema_of s.now) m }
{
    match model_in(s.models.as_slice(), m) {
        Some(info) => info.principal,
        None => false,
    }
}
