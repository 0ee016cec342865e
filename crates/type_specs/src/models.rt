//! Models that are added to a schema.

ghost use Rattle.std.specs.Prelude.{◌≡◌, [], IfOk, map};
ghost use Rattle.type_schema.specs.SchemaViews.{field_info_of, model_info_of};
ghost use Rattle.type_schema.specs.Views.{policy_of};
ghost use Rattle.type_typing.specs.Names.{plain_of};
ghost use Rattle.type_typing.specs.Outcome.{and_then};
ghost use Rattle.type_typing.specs.Refusals.{Refuses};
ghost use Rattle.type_specs.specs.InTurn.{Becomes, GivesSeen, in_turn};
ghost use Rattle.type_specs.specs.Models as spec;
ghost use Rattle.type_specs.specs.NewNames as new;

use crate::grown::{copied, push_model};
use crate::names::{fields_differ, new_model};
use crate::stage::Stage;
use sqlite_items::Items;
use std::alloc::{AllocError, Global};
use std::rc::Rc;
use text_tree::{FieldDef, ModelDef, Policy};
use type_schema::{FieldInfo, FieldNo, ModelInfo, ModelNo, Schema, TPolicy};
use type_typing::{TypeErr, typed_policy, typed_type};

/// A model with its name and number alone, and the next number of the schema.
#[tactic(auto, unfolding(type_typing::specs::Names::plain_of))]
fn bare_model(alloc: Global, schema: &Schema, d: &ModelDef) -> Result<ModelInfo, AllocError>
    ensures { IfOk result (λ info.
        model_info_of info ≡ spec.bare_model (plain_of schema.now) d.now) }
{
    let name = d.name.name.copy(alloc)?;
    let create = Rc::new(alloc, TPolicy::Nobody)?;
    let delete = Rc::new(alloc, TPolicy::Nobody)?;
    Ok(ModelInfo {
        number: schema.next_model,
        name,
        principal: d.principal,
        create,
        delete,
        fields: Items::new(alloc),
    })
}

/// Adds a model with its name and number alone. Its fields have names that differ.
#[tactic(auto, unfolding(crate::specs::Models::with_names))]
fn with_names(alloc: Global, schema: &mut Schema, d: &ModelDef) -> Result<(), TypeErr>
    ensures becomes { Becomes
        (spec.with_names (plain_of schema.old) d.now) (plain_of schema.new) result }
    ensures refused { Refuses (and_then (new.new_model (plain_of schema.old) d.now.name) (λ _.
        new.fields_differ d.now.fields)) result }
{
    new_model(schema, &d.name)?;
    fields_differ(d.fields.as_slice())?;
    let info = bare_model(alloc, schema, d)?;
    push_model(schema, info)
}

/// A policy on records of the model.
#[tactic(auto, unfolding(crate::specs::Models::policy_over))]
pub fn policy_over(
    alloc: Global,
    over: &Schema,
    model: ModelNo,
    policy: &Policy,
) -> Result<Rc<TPolicy>, TypeErr>
    ensures { GivesSeen (λ p. policy_of p.value)
        (spec.policy_over (plain_of over.now) model policy.now) result }
{
    let typed = typed_policy(alloc, over, model, policy)?;
    Ok(Rc::new(alloc, typed)?)
}

/// A policy on records of the model, as far as the stage looks at it.
#[tactic(auto, unfolding(crate::specs::Models::policy_at))]
fn policy_at(
    alloc: Global,
    stage: Stage,
    over: &Schema,
    model: ModelNo,
    policy: &Policy,
) -> Result<Rc<TPolicy>, TypeErr>
    ensures { GivesSeen (λ p. policy_of p.value)
        (spec.policy_at stage (plain_of over.now) model policy.now) result }
{
    match stage {
        Stage::Types => Ok(Rc::new(alloc, TPolicy::Nobody)?),
        Stage::Policies => policy_over(alloc, over, model, policy),
    }
}

/// A field of the model, as far as the stage looks at it.
#[tactic(auto, unfolding(crate::specs::Models::typed_field))]
pub fn typed_field(
    alloc: Global,
    stage: Stage,
    over: &Schema,
    model: ModelNo,
    number: FieldNo,
    f: &FieldDef,
) -> Result<FieldInfo, TypeErr>
    ensures { GivesSeen field_info_of
        (spec.typed_field stage (plain_of over.now) model number f.now) result }
{
    let ty = typed_type(over, &f.ty)?;
    let read = policy_at(alloc, stage, over, model, &f.read)?;
    let write = policy_at(alloc, stage, over, model, &f.write)?;
    let name = f.name.name.copy(alloc)?;
    Ok(FieldInfo {
        number,
        name,
        ty,
        read,
        write,
    })
}

// Six beside the allocator: where the field stands, the list that it joins, and the field.
/// Adds the next field of the model.
#[tactic(auto, using(crate::proofs::Plain::next_field_typed, crate::proofs::Plain::next_field_at_fault))]
fn next_field(
    alloc: Global,
    stage: Stage,
    over: &Schema,
    model: ModelNo,
    first: FieldNo,
    fields: &mut Vec<FieldInfo>,
    f: &FieldDef,
) -> Result<(), TypeErr>
    ensures { Becomes (spec.with_next_field stage (plain_of over.now) model first
        (map field_info_of fields.old.items) f.now)
        (map field_info_of fields.new.items) result }
{
    // So many fields do not fit in memory.
    let Ok(count) = u32::try_from(fields.len()) else {
        return Err(TypeErr::OutOfMemory);
    };
    let Some(number) = first.checked_add(count) else {
        return Err(TypeErr::OutOfMemory);
    };
    let field = typed_field(alloc, stage, over, model, number, f)?;
    fields.push(field)?;
    Ok(())
}

/// The fields of the model, numbered from the first on.
fn typed_fields(
    alloc: Global,
    stage: Stage,
    over: &Schema,
    model: ModelNo,
    first: FieldNo,
    defs: &[FieldDef],
) -> Result<Items<FieldInfo>, TypeErr>
    ensures { GivesSeen (map field_info_of)
        (in_turn (spec.with_next_field stage (plain_of over.now) model first) [] defs.now) result }
{
    let mut fields = Vec::new(alloc);
    for f in defs {
        next_field(alloc, stage, over, model, first, &mut fields, f)?;
    }
    Ok(Items::from_vec(fields))
}

/// A model with the next numbers of the schema that it is added to, as far as the stage looks at
/// it.
#[tactic(auto, unfolding(crate::specs::Models::typed_model, type_typing::specs::Names::plain_of))]
fn typed_model(
    alloc: Global,
    stage: Stage,
    over: &Schema,
    schema: &Schema,
    d: &ModelDef,
) -> Result<ModelInfo, TypeErr>
    ensures { GivesSeen model_info_of
        (spec.typed_model stage (plain_of over.now) (plain_of schema.now) d.now) result }
{
    let number = schema.next_model;
    let create = policy_at(alloc, stage, over, number, &d.create)?;
    let delete = policy_at(alloc, stage, over, number, &d.delete)?;
    let defs = d.fields.as_slice();
    let fields = typed_fields(alloc, stage, over, number, schema.next_field, defs)?;
    let name = d.name.name.copy(alloc)?;
    Ok(ModelInfo {
        number,
        name,
        principal: d.principal,
        create,
        delete,
        fields,
    })
}

/// Adds a model, as far as the stage looks at it.
#[tactic(auto, unfolding(crate::specs::Models::with_typed))]
fn with_typed(
    alloc: Global,
    stage: Stage,
    over: &Schema,
    schema: &mut Schema,
    d: &ModelDef,
) -> Result<(), TypeErr>
    ensures { Becomes (spec.with_typed stage (plain_of over.now) (plain_of schema.old) d.now)
        (plain_of schema.new) result }
{
    let info = typed_model(alloc, stage, over, schema, d)?;
    push_model(schema, info)
}

/// The schema with the names of these models.
fn all_named(alloc: Global, schema: &Schema, defs: &[ModelDef]) -> Result<Schema, TypeErr>
    ensures { GivesSeen plain_of (in_turn spec.with_names (plain_of schema.now) defs.now) result }
{
    let mut named = copied(alloc, schema)?;
    for d in defs {
        with_names(alloc, &mut named, d)?;
    }
    Ok(named)
}

/// The schema with these models, as far as the stage looks at them.
fn all_typed(
    alloc: Global,
    stage: Stage,
    over: &Schema,
    schema: &Schema,
    defs: &[ModelDef],
) -> Result<Schema, TypeErr>
    ensures { GivesSeen plain_of
        (in_turn (spec.with_typed stage (plain_of over.now)) (plain_of schema.now) defs.now)
        result }
{
    let mut typed = copied(alloc, schema)?;
    for d in defs {
        with_typed(alloc, stage, over, &mut typed, d)?;
    }
    Ok(typed)
}

/// The schema with these models.
#[tactic(auto, unfolding(crate::specs::Models::with_models))]
pub fn with_models(alloc: Global, schema: &Schema, defs: &[ModelDef]) -> Result<Schema, TypeErr>
    ensures { GivesSeen plain_of (spec.with_models (plain_of schema.now) defs.now) result }
{
    let named = all_named(alloc, schema, defs)?;
    let known = all_typed(alloc, Stage::Types, &named, schema, defs)?;
    all_typed(alloc, Stage::Policies, &known, schema, defs)
}

/// The one model that is added to the schema.
#[tactic(auto, unfolding(crate::specs::Models::created_model))]
pub fn created_model(alloc: Global, schema: &Schema, d: &ModelDef) -> Result<ModelInfo, TypeErr>
    ensures { GivesSeen model_info_of (spec.created_model (plain_of schema.now) d.now) result }
{
    let mut named = copied(alloc, schema)?;
    with_names(alloc, &mut named, d)?;
    let mut known = copied(alloc, schema)?;
    with_typed(alloc, Stage::Types, &named, &mut known, d)?;
    typed_model(alloc, Stage::Policies, &known, schema, d)
}
