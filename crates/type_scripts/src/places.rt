//! The places of the policies and initialisers of a tree, in the order of the text.

ghost use Rattle.std.specs.Prelude.{◌≡◌, ◌++◌, ◌∷◌, [], IfOk, OnOk, map};
ghost use Rattle.std.specs.List.{flat_map};
ghost use Rattle.std.specs.Prelude.{option_to_list};
ghost use Rattle.type_specs.specs.Sizes as spec;
ghost use Rattle.type_commands.specs.Commands as rule;

use std::alloc::{AllocError, Global};
use text_tree::{Command, FieldDef, Init, ModelDef, Policy};

/// The first token of a policy's set, or the word that the policy is.
fn policy_place(policy: &Policy) -> u32
    ensures { result ≡ spec.policy_place policy.now }
{
    match policy {
        Policy::Everyone(at) | Policy::Nobody(at) => *at,
        Policy::Fun(_, set) => set.at(),
    }
}

/// The first token of an initialiser.
fn init_place(init: &Init) -> u32
    ensures { result ≡ rule.init_place init.now }
{
    match init {
        Init::Plain(e) => e.at(),
        Init::OfSet(set) => set.at(),
    }
}

/// Puts the places of two policies last.
fn add_policies(places: &mut Vec<u32>, one: &Policy, other: &Policy) -> Result<(), AllocError>
    ensures { OnOk result (places.new.items ≡ places.old.items
        ++ (spec.policy_place one.now ∷ spec.policy_place other.now ∷ [])) }
{
    places.push(policy_place(one))?;
    places.push(policy_place(other))?;
    Ok(())
}

/// Puts the places of a model last.
fn add_model(places: &mut Vec<u32>, d: &ModelDef) -> Result<(), AllocError>
    ensures { OnOk result (places.new.items ≡ places.old.items ++ spec.model_places d.now) }
{
    add_policies(places, &d.create, &d.delete)?;
    add_fields(places, d.fields.as_slice())
}

/// Puts the places of fields last.
fn add_fields(places: &mut Vec<u32>, fields: &[FieldDef]) -> Result<(), AllocError>
    ensures { OnOk result (places.new.items
        ≡ places.old.items ++ flat_map spec.field_places fields.now) }
{
    for f in fields {
        add_policies(places, &f.read, &f.write)?;
    }
    Ok(())
}

/// Puts the place of a policy last, where it is given.
fn add_given(places: &mut Vec<u32>, given: &Option<Policy>) -> Result<(), AllocError>
    ensures { OnOk result (places.new.items ≡ places.old.items
        ++ map spec.policy_place (option_to_list given.now)) }
{
    match given {
        Some(policy) => {
            places.push(policy_place(policy))?;
            Ok(())
        }
        None => Ok(()),
    }
}

/// Puts the places of two policies last, where they are given.
fn add_both(
    places: &mut Vec<u32>,
    one: &Option<Policy>,
    other: &Option<Policy>,
) -> Result<(), AllocError>
    ensures { OnOk result (places.new.items ≡ places.old.items
        ++ rule.given_places one.now other.now) }
{
    add_given(places, one)?;
    add_given(places, other)
}

/// Puts the places of a field and its initialiser last.
fn add_new_field(places: &mut Vec<u32>, f: &FieldDef, init: &Init) -> Result<(), AllocError>
    ensures { OnOk result (places.new.items ≡ places.old.items
        ++ (spec.field_places f.now ++ rule.init_place init.now ∷ [])) }
{
    add_policies(places, &f.read, &f.write)?;
    places.push(init_place(init))?;
    Ok(())
}

/// The places of the policies of models.
pub(crate) fn models_places(alloc: Global, defs: &[ModelDef]) -> Result<Vec<u32>, AllocError>
    ensures { IfOk result (λ places. places.items ≡ flat_map spec.model_places defs.now) }
{
    let mut places = Vec::new(alloc);
    for d in defs {
        add_model(&mut places, d)?;
    }
    Ok(places)
}

/// The places of what a command gives. Most give nothing.
pub(crate) fn command_places(alloc: Global, c: &Command) -> Result<Vec<u32>, AllocError>
    ensures { IfOk result (λ places. places.items ≡ rule.command_places c.now) }
{
    let mut places = Vec::new(alloc);
    match c {
        Command::CreateModel(d, _) => add_model(&mut places, d)?,
        Command::AddField(_, f, _, init, _) => add_new_field(&mut places, f, init)?,
        Command::UpdateFieldPolicy(_, _, one, other, _)
        | Command::WeakenFieldPolicy(_, _, one, other, _, _)
        | Command::UpdatePolicy(_, one, other, _)
        | Command::WeakenPolicy(_, one, other, _, _) => add_both(&mut places, one, other)?,
        Command::DeleteModel(..)
        | Command::AddStatic(..)
        | Command::RemoveStatic(..)
        | Command::AddPrincipal(..)
        | Command::RemoveField(..) => {}
    }
    Ok(places)
}
