//! Who uses a field, a model or a static.

ghost use Rattle.std.specs.Prelude.{◌≡◌, map};
ghost use Rattle.std.specs.List.{flat_map};
ghost use Rattle.type_schema.specs.SchemaViews.{field_info_of, model_info_of};
ghost use Rattle.type_typing.specs.Names.{plain_of};
ghost use Rattle.type_commands.specs.Users as rule;

use crate::thing::Thing;
use crate::uses::{policy_uses, type_uses};
use type_schema::{FieldInfo, FieldNo, ModelInfo, ModelNo, Right, Schema, Target};
use type_typing::UsedBy;

/// Whether a field of the model goes away with the thing.
fn field_goes(thing: Thing, model: ModelNo, field: FieldNo) -> bool
    ensures { result ≡ rule.field_goes thing model field }
{
    match thing {
        Thing::Field(m, f) => model == m && field == f,
        Thing::Model(m) => model == m,
        Thing::Static(_) => false,
    }
}

/// Whether a model goes away with the thing.
fn model_goes(thing: Thing, model: ModelNo) -> bool
    ensures { result ≡ rule.model_goes thing model }
{
    match thing {
        Thing::Model(m) => model == m,
        Thing::Field(..) | Thing::Static(_) => false,
    }
}

/// The first user of the thing in a field of the model: its type, its read or its write policy.
fn user_in_field(thing: Thing, model: ModelNo, f: &FieldInfo) -> Option<UsedBy>
    ensures { result
        ≡ rule.first_missing thing (rule.field_users model (field_info_of f.now)) }
{
    if field_goes(thing, model, f.number) {
        return None;
    }
    if type_uses(f.ty, thing) {
        return Some(UsedBy::FieldType(model, f.number));
    }
    let target = Target::Field(model, f.number);
    if policy_uses(&f.read, thing) {
        return Some(UsedBy::Policy(target, Right::Read));
    }
    if policy_uses(&f.write, thing) {
        return Some(UsedBy::Policy(target, Right::Write));
    }
    None
}

/// The first user of the thing in the fields of the model.
fn user_in_fields(thing: Thing, model: ModelNo, fields: &[FieldInfo]) -> Option<UsedBy>
    ensures { result ≡ rule.first_missing thing
        (flat_map (rule.field_users model) (map field_info_of fields.now)) }
{
    for f in fields {
        let user = user_in_field(thing, model, f);
        if user.is_some() {
            return user;
        }
    }
    None
}

/// The first of the two policies of the model that uses the thing.
fn user_in_rights(thing: Thing, info: &ModelInfo) -> Option<UsedBy>
    ensures { result ≡ rule.first_missing thing (rule.right_users (model_info_of info.now)) }
{
    if model_goes(thing, info.number) {
        return None;
    }
    let target = Target::Model(info.number);
    if policy_uses(&info.create, thing) {
        return Some(UsedBy::Policy(target, Right::Create));
    }
    if policy_uses(&info.delete, thing) {
        return Some(UsedBy::Policy(target, Right::Delete));
    }
    None
}

/// The first user of the thing in the model.
fn user_in_model(thing: Thing, info: &ModelInfo) -> Option<UsedBy>
    ensures { result ≡ rule.first_missing thing (rule.model_users (model_info_of info.now)) }
{
    match user_in_rights(thing, info) {
        Some(user) => Some(user),
        None => user_in_fields(thing, info.number, info.fields.as_slice()),
    }
}

/// The first user of the thing in the models.
fn user_in_models(thing: Thing, models: &[ModelInfo]) -> Option<UsedBy>
    ensures { result ≡ rule.first_missing thing
        (flat_map rule.model_users (map model_info_of models.now)) }
{
    for info in models {
        let user = user_in_model(thing, info);
        if user.is_some() {
            return user;
        }
    }
    None
}

/// The first user of the thing in the order of the schema, but what goes away with it.
#[tactic(auto, unfolding(crate::specs::Users::first_user, type_typing::specs::Names::plain_of))]
pub fn first_user(schema: &Schema, thing: Thing) -> Option<UsedBy>
    ensures { result ≡ rule.first_user (plain_of schema.now) thing }
{
    user_in_models(thing, schema.models.as_slice())
}
