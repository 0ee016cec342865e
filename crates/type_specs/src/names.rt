//! Names that are added.

ghost use Rattle.std.specs.Prelude.{◌≡◌, map};
ghost use Rattle.std.specs.List.{list_any};
ghost use Rattle.std.specs.Str.{bytes_eq};
ghost use Rattle.type_typing.specs.Names.{plain_of};
ghost use Rattle.type_specs.specs.NewNames as spec;

use text_ast::limits::{MOST_FIELDS, MOST_MODELS, MOST_STATICS};
use text_tree::{FieldDef, Named};
use type_schema::Schema;
use type_typing::{TypeErr, model_named, same_name, static_named};

/// Whether there may be one more, where so many are there.
#[tactic(auto, unfolding(crate::specs::NewNames::one_more))]
pub fn one_more(is_taken: bool, there: usize, most: usize, x: &Named) -> Result<(), TypeErr>
    ensures { result ≡ spec.one_more is_taken there most x.now }
{
    if is_taken {
        return Err(TypeErr::Twice { at: x.at });
    }
    if there < most {
        Ok(())
    } else {
        Err(TypeErr::Crowded { at: x.at })
    }
}

/// Whether a static or a model has the name.
#[tactic(auto, unfolding(crate::specs::NewNames::is_taken))]
fn is_taken(schema: &Schema, name: &[u8]) -> bool
    ensures { result ≡ spec.is_taken (plain_of schema.now) name.now }
{
    static_named(schema, name).is_some() || model_named(schema, name).is_some()
}

/// Whether a schema may have one more static of this name.
#[tactic(auto, using(crate::proofs::Plain::statics_length))]
pub fn new_static(schema: &Schema, x: &Named) -> Result<(), TypeErr>
    ensures { result ≡ spec.new_static (plain_of schema.now) x.now }
{
    let taken = is_taken(schema, x.name.bytes());
    one_more(taken, schema.statics.len(), MOST_STATICS, x)
}

/// Whether a schema may have one more model of this name.
#[tactic(auto, using(crate::proofs::Plain::models_length))]
pub fn new_model(schema: &Schema, x: &Named) -> Result<(), TypeErr>
    ensures { result ≡ spec.new_model (plain_of schema.now) x.now }
{
    let taken = is_taken(schema, x.name.bytes());
    one_more(taken, schema.models.len(), MOST_MODELS, x)
}

/// Whether a field of this name is among them.
fn has_field(fields: &[FieldDef], name: &[u8]) -> bool
    ensures { result ≡ list_any (λ f. bytes_eq f.name.name name.now) fields.now }
{
    fields.iter().any(|f| same_name(f.name.name.bytes(), name))
}

/// Whether a model may have a field of this name after these fields.
#[tactic(auto, using(crate::proofs::Plain::new_field_seen))]
fn new_field(fields: &[FieldDef], x: &Named) -> Result<(), TypeErr>
    ensures { result ≡ spec.new_field (map (λ f. f.name.name) fields.now) x.now }
{
    let taken = has_field(fields, x.name.bytes());
    one_more(taken, fields.len(), MOST_FIELDS, x)
}

/// Whether the names of the fields of a model differ.
#[tactic(auto, unfolding(crate::specs::NewNames::fields_differ))]
pub fn fields_differ(fields: &[FieldDef]) -> Result<(), TypeErr>
    ensures { result ≡ spec.fields_differ fields.now }
{
    for (i, field) in fields.iter().enumerate() {
        new_field(&fields[..i], &field.name)?;
    }
    Ok(())
}
