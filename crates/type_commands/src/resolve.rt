//! What a command is over the schema before it.

ghost use Rattle.std.specs.Prelude.{◌≡◌};
ghost use Rattle.type_schema.specs.SchemaViews.{command_of, field_info_of};
ghost use Rattle.type_typing.specs.Names.{plain_of};
ghost use Rattle.type_typing.specs.Outcome.{and_then};
ghost use Rattle.type_typing.specs.Refusals.{Refuses};
ghost use Rattle.type_specs.specs.InTurn.{GivesSeen, seen_as};
ghost use Rattle.type_specs.specs.NewNames.{new_static};
ghost use Rattle.type_commands.specs.Resolved as rule;

use crate::change::Change;
use crate::changes::changed;
use crate::parts::{
    given, init_over, known_field, known_model, known_static, new_field_in, reason_given, unused,
};
use crate::thing::Thing;
use std::alloc::Global;
use text_tree::{Command, FieldDef, Init, ModelDef, Named, Policy, Reason};
use type_schema::{FieldInfo, ModelNo, Schema, TCommand};
use type_specs::{Stage, created_model, new_static, next_static, typed_field};
use type_typing::{TypeErr, is_principal};

/// A new model.
#[tactic(auto, unfolding(crate::specs::Resolved::created))]
fn created(alloc: Global, schema: &Schema, d: &ModelDef) -> Result<TCommand, TypeErr>
    ensures { GivesSeen command_of (rule.created (plain_of schema.now) d.now) result }
{
    Ok(TCommand::CreateModel(created_model(alloc, schema, d)?))
}

/// A new static.
#[tactic(auto, unfolding(crate::specs::Resolved::added_static))]
fn added_static(alloc: Global, schema: &Schema, x: &Named) -> Result<TCommand, TypeErr>
    ensures gives { GivesSeen command_of (rule.added_static (plain_of schema.now) x.now) result }
    ensures refused { Refuses (new_static (plain_of schema.now) x.now) result }
{
    new_static(schema, x)?;
    Ok(TCommand::AddStatic(next_static(alloc, schema, x)?))
}

/// A model that becomes one of principals, and is not yet.
#[tactic(auto, unfolding(crate::specs::Resolved::new_principal))]
fn new_principal(schema: &Schema, model: &Named) -> Result<TCommand, TypeErr>
    ensures { seen_as command_of result ≡ rule.new_principal (plain_of schema.now) model.now }
{
    let m = known_model(schema, model)?;
    if is_principal(schema, m) {
        return Err(TypeErr::Twice { at: model.at });
    }
    Ok(TCommand::AddPrincipal(m))
}

/// A model that nothing uses.
#[tactic(auto, unfolding(crate::specs::Resolved::removed_model))]
fn removed_model(schema: &Schema, model: &Named) -> Result<TCommand, TypeErr>
    ensures { seen_as command_of result ≡ rule.removed_model (plain_of schema.now) model.now }
{
    let m = known_model(schema, model)?;
    unused(schema, Thing::Model(m), model)?;
    Ok(TCommand::DeleteModel(m))
}

/// A static that nothing lists.
#[tactic(auto, unfolding(crate::specs::Resolved::removed_static))]
fn removed_static(schema: &Schema, x: &Named) -> Result<TCommand, TypeErr>
    ensures { seen_as command_of result ≡ rule.removed_static (plain_of schema.now) x.now }
{
    let n = known_static(schema, x)?;
    unused(schema, Thing::Static(n), x)?;
    Ok(TCommand::RemoveStatic(n))
}

/// A field that nothing reads.
#[tactic(auto, unfolding(crate::specs::Resolved::removed_field))]
fn removed_field(schema: &Schema, model: &Named, x: &Named) -> Result<TCommand, TypeErr>
    ensures { seen_as command_of result
        ≡ rule.removed_field (plain_of schema.now) model.now x.now }
{
    let m = known_model(schema, model)?;
    let f = known_field(schema, m, x)?;
    unused(schema, Thing::Field(m, f), x)?;
    Ok(TCommand::RemoveField(m, f))
}

/// A new field of the model, whose policies see it.
#[tactic(auto, using(crate::proofs::Changed::seen_fails))]
fn field_seen(
    alloc: Global,
    schema: &Schema,
    m: ModelNo,
    f: &FieldDef,
) -> Result<FieldInfo, TypeErr>
    ensures { GivesSeen field_info_of (rule.field_seen (plain_of schema.now) m f.now) result }
{
    let number = schema.next_field;
    let closed = typed_field(alloc, Stage::Types, schema, m, number, f)?;
    let known = changed(alloc, schema, m, &Change::Field(closed))?;
    typed_field(alloc, Stage::Policies, &known, m, number, f)
}

/// A new field of a model, with what it is at first.
#[tactic(auto, unfolding(crate::specs::Resolved::added_field))]
fn added_field(
    alloc: Global,
    schema: &Schema,
    model: &Named,
    f: &FieldDef,
    x: &Named,
    init: &Init,
) -> Result<TCommand, TypeErr>
    ensures gives { GivesSeen command_of
        (rule.added_field (plain_of schema.now) model.now f.now x.now init.now) result }
    ensures refused { Refuses (and_then (rule.known_model (plain_of schema.now) model.now) (λ m.
        rule.new_field_in (plain_of schema.now) m f.now.name)) result }
{
    let m = known_model(schema, model)?;
    new_field_in(schema, m, &f.name)?;
    let field = field_seen(alloc, schema, m, f)?;
    let first = init_over(alloc, schema, m, field.ty, x, init)?;
    Ok(TCommand::AddField(m, field, first))
}

/// New policies of a field.
#[tactic(auto, unfolding(crate::specs::Resolved::updated_field))]
fn updated_field(
    alloc: Global,
    schema: &Schema,
    model: &Named,
    x: &Named,
    read: &Option<Policy>,
    write: &Option<Policy>,
) -> Result<TCommand, TypeErr>
    ensures gives { GivesSeen command_of
        (rule.updated_field (plain_of schema.now) model.now x.now read.now write.now) result }
    ensures refused { Refuses (and_then (rule.known_model (plain_of schema.now) model.now) (λ m.
        rule.known_field (plain_of schema.now) m x.now)) result }
{
    let m = known_model(schema, model)?;
    let f = known_field(schema, m, x)?;
    let read = given(alloc, schema, m, read)?;
    let write = given(alloc, schema, m, write)?;
    Ok(TCommand::UpdateFieldPolicy(m, f, read, write))
}

// Six beside the allocator: a schema, and the parts of the command as its tree has them.
/// New policies of a field that may allow more, and why.
#[tactic(auto, unfolding(crate::specs::Resolved::weakened_field))]
fn weakened_field(
    alloc: Global,
    schema: &Schema,
    model: &Named,
    x: &Named,
    read: &Option<Policy>,
    write: &Option<Policy>,
    reason: &Reason,
) -> Result<TCommand, TypeErr>
    ensures gives { GivesSeen command_of (rule.weakened_field
        (plain_of schema.now) model.now x.now read.now write.now reason.now) result }
    ensures refused { Refuses (and_then (rule.known_model (plain_of schema.now) model.now) (λ m.
        rule.known_field (plain_of schema.now) m x.now)) result }
{
    let m = known_model(schema, model)?;
    let f = known_field(schema, m, x)?;
    let read = given(alloc, schema, m, read)?;
    let write = given(alloc, schema, m, write)?;
    let text = reason_given(alloc, reason)?;
    Ok(TCommand::WeakenFieldPolicy(m, f, read, write, text))
}

/// New policies of a model.
#[tactic(auto, unfolding(crate::specs::Resolved::updated_model))]
fn updated_model(
    alloc: Global,
    schema: &Schema,
    model: &Named,
    create: &Option<Policy>,
    delete: &Option<Policy>,
) -> Result<TCommand, TypeErr>
    ensures gives { GivesSeen command_of
        (rule.updated_model (plain_of schema.now) model.now create.now delete.now) result }
    ensures refused { Refuses (rule.known_model (plain_of schema.now) model.now) result }
{
    let m = known_model(schema, model)?;
    let create = given(alloc, schema, m, create)?;
    let delete = given(alloc, schema, m, delete)?;
    Ok(TCommand::UpdatePolicy(m, create, delete))
}

/// New policies of a model that may allow more, and why.
#[tactic(auto, unfolding(crate::specs::Resolved::weakened_model))]
fn weakened_model(
    alloc: Global,
    schema: &Schema,
    model: &Named,
    create: &Option<Policy>,
    delete: &Option<Policy>,
    reason: &Reason,
) -> Result<TCommand, TypeErr>
    ensures gives { GivesSeen command_of (rule.weakened_model
        (plain_of schema.now) model.now create.now delete.now reason.now) result }
    ensures refused { Refuses (rule.known_model (plain_of schema.now) model.now) result }
{
    let m = known_model(schema, model)?;
    let create = given(alloc, schema, m, create)?;
    let delete = given(alloc, schema, m, delete)?;
    let text = reason_given(alloc, reason)?;
    Ok(TCommand::WeakenPolicy(m, create, delete, text))
}

/// What a command is over the schema before it, by every rule but those on sizes, or the first
/// fault and its place.
#[tactic(auto, using(type_specs::proofs::Seen::seen_gives), unfolding(crate::specs::Resolved::resolved))]
pub fn resolved(alloc: Global, schema: &Schema, c: &Command) -> Result<TCommand, TypeErr>
    ensures { GivesSeen command_of (rule.resolved (plain_of schema.now) c.now) result }
{
    match c {
        Command::CreateModel(d, _) => created(alloc, schema, d),
        Command::DeleteModel(model, _) => removed_model(schema, model),
        Command::AddStatic(x, _) => added_static(alloc, schema, x),
        Command::RemoveStatic(x, _) => removed_static(schema, x),
        Command::AddPrincipal(model, _) => new_principal(schema, model),
        Command::AddField(model, f, x, init, _) => added_field(alloc, schema, model, f, x, init),
        Command::RemoveField(model, x, _) => removed_field(schema, model, x),
        Command::UpdateFieldPolicy(model, x, read, write, _) => {
            updated_field(alloc, schema, model, x, read, write)
        }
        Command::WeakenFieldPolicy(model, x, read, write, reason, _) => {
            weakened_field(alloc, schema, model, x, read, write, reason)
        }
        Command::UpdatePolicy(model, create, delete, _) => {
            updated_model(alloc, schema, model, create, delete)
        }
        Command::WeakenPolicy(model, create, delete, reason, _) => {
            weakened_model(alloc, schema, model, create, delete, reason)
        }
    }
}
