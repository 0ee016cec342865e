//! The policy in force after so many commands.

ghost use Rattle.std.specs.Prelude.{◌≡◌, ◌==◌, find};
ghost use Rattle.std.specs.Option.{option_copied, option_map};
ghost use Rattle.type_schema.specs.Schema as plain;
ghost use Rattle.type_schema.specs.SchemaViews.{field_info_of, model_info_of, schema_of, script_of};
ghost use Rattle.type_schema.specs.Script as rule;
ghost use Rattle.type_schema.specs.Views.{policy_of};
ghost use Rattle.data_meaning.specs.Gain as gain;

use type_schema::{
    FieldInfo, FieldNo, ModelInfo, ModelNo, Right, Schema, TPolicy, TScript, Target,
};

/// The schema after k commands.
pub(crate) fn schema_at(t: &TScript, k: usize) -> &Schema
    ensures { schema_of result.now ≡ rule.schema_at (script_of t.now) k }
{
    match t.schemas.as_slice().get(k) {
        Some(schema) => schema,
        None => &t.start,
    }
}

/// The model of this number.
fn model_in(models: &[ModelInfo], m: ModelNo) -> Option<&ModelInfo>
    ensures { option_copied result ≡ find (λ info. info.number == m) models.now }
{
    models.iter().find(|info| info.number == m)
}

/// The field of this number.
fn field_in(fields: &[FieldInfo], f: FieldNo) -> Option<&FieldInfo>
    ensures { option_copied result ≡ find (λ info. info.number == f) fields.now }
{
    fields.iter().find(|info| info.number == f)
}

/// A model of a schema.
fn model_of(schema: &Schema, m: ModelNo) -> Option<&ModelInfo>
    ensures { option_map (λ info. model_info_of info.now) result
        ≡ plain.model_of (schema_of schema.now) m }
{
    model_in(schema.models.as_slice(), m)
}

/// A field of a model.
fn field_within(info: &ModelInfo, f: FieldNo) -> Option<&FieldInfo>
    ensures { option_map (λ field. field_info_of field.now) result
        ≡ plain.field_in (model_info_of info.now).fields f }
{
    field_in(info.fields.as_slice(), f)
}

/// A field of a schema.
fn field_of(schema: &Schema, m: ModelNo, f: FieldNo) -> Option<&FieldInfo>
    ensures { option_map (λ field. field_info_of field.now) result
        ≡ plain.field_of (schema_of schema.now) m f }
{
    match model_of(schema, m) {
        Some(info) => field_within(info, f),
        None => None,
    }
}

/// The policy of a right on a field of a schema.
fn field_policy(schema: &Schema, m: ModelNo, f: FieldNo, right: Right) -> Option<&TPolicy>
    ensures { option_map (λ policy. policy_of policy.now) result
        ≡ plain.policy_in (schema_of schema.now) (Target.Field m f) right }
{
    match (right, field_of(schema, m, f)) {
        (Right::Read, Some(field)) => Some(&*field.read),
        (Right::Write, Some(field)) => Some(&*field.write),
        (Right::Read | Right::Write, None) | (Right::Create | Right::Delete, _) => None,
    }
}

/// The policy of a right on a model of a schema.
fn model_policy(schema: &Schema, m: ModelNo, right: Right) -> Option<&TPolicy>
    ensures { option_map (λ policy. policy_of policy.now) result
        ≡ plain.policy_in (schema_of schema.now) (Target.Model m) right }
{
    match (right, model_of(schema, m)) {
        (Right::Create, Some(info)) => Some(&*info.create),
        (Right::Delete, Some(info)) => Some(&*info.delete),
        (Right::Create | Right::Delete, None) | (Right::Read | Right::Write, _) => None,
    }
}

/// The policy of a right on its target that is in force after k commands.
pub fn policy_in_force(t: &TScript, k: usize, target: Target, right: Right) -> Option<&TPolicy>
    ensures { option_map (λ policy. policy_of policy.now) result
        ≡ gain.policy_at (script_of t.now) k target right }
{
    let schema = schema_at(t, k);
    match target {
        Target::Field(m, f) => field_policy(schema, m, f, right),
        Target::Model(m) => model_policy(schema, m, right),
    }
}
