//! Specifications.

ghost use Rattle.std.specs.Prelude.{◌≡◌, IfOk};
ghost use Rattle.type_schema.specs.SchemaViews.{static_info_of};
ghost use Rattle.type_typing.specs.Names.{plain_of};
ghost use Rattle.type_typing.specs.Refusals.{Refuses};
ghost use Rattle.type_specs.specs.InTurn.{Becomes, GivesSeen, in_turn};
ghost use Rattle.type_specs.specs.NewNames.{new_static};
ghost use Rattle.type_specs.specs.Specs as rule;

use crate::grown::push_static;
use crate::models::with_models;
use crate::names::new_static;
use sqlite_items::Items;
use std::alloc::{AllocError, Global};
use text_tree::{Named, Spec};
use type_schema::{Schema, StaticInfo};
use type_typing::TypeErr;

/// The static of this name, with the next number of the schema.
#[tactic(auto, unfolding(type_typing::specs::Names::plain_of))]
pub fn next_static(alloc: Global, schema: &Schema, x: &Named) -> Result<StaticInfo, AllocError>
    ensures { IfOk result (λ info.
        static_info_of info ≡ rule.next_static (plain_of schema.now) x.now) }
{
    let name = x.name.copy(alloc)?;
    Ok(StaticInfo {
        number: schema.next_static,
        name,
    })
}

/// Adds a static.
#[tactic(auto, unfolding(crate::specs::Specs::with_static))]
fn with_static(alloc: Global, schema: &mut Schema, x: &Named) -> Result<(), TypeErr>
    ensures becomes { Becomes
        (rule.with_static (plain_of schema.old) x.now) (plain_of schema.new) result }
    ensures refused { Refuses (new_static (plain_of schema.old) x.now) result }
{
    new_static(schema, x)?;
    let info = next_static(alloc, schema, x)?;
    push_static(schema, info)
}

/// The schema without statics and models.
#[tactic(auto, unfolding(type_typing::specs::Names::plain_of))]
fn empty_schema(alloc: Global) -> Schema
    ensures { plain_of result ≡ rule.empty_schema }
{
    Schema {
        statics: Items::new(alloc),
        models: Items::new(alloc),
        next_static: 0,
        next_model: 0,
        next_field: 0,
        added: Items::new(alloc),
        removed: Items::new(alloc),
    }
}

/// A schema of these statics alone.
fn all_statics(alloc: Global, names: &[Named]) -> Result<Schema, TypeErr>
    ensures { GivesSeen plain_of (in_turn rule.with_static rule.empty_schema names.now) result }
{
    let mut schema = empty_schema(alloc);
    for x in names {
        with_static(alloc, &mut schema, x)?;
    }
    Ok(schema)
}

/// The schema of a specification, by every rule but those on sizes: its statics, models and fields
/// are numbered in its order, or the first fault and its place.
#[tactic(auto, unfolding(crate::specs::Specs::resolved_spec))]
pub fn resolved_spec(alloc: Global, spec: &Spec) -> Result<Schema, TypeErr>
    ensures { GivesSeen plain_of (rule.resolved_spec spec.now) result }
{
    let statics = all_statics(alloc, spec.statics.as_slice())?;
    with_models(alloc, &statics, spec.models.as_slice())
}
