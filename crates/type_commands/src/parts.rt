//! Names and parts of commands.

ghost use Rattle.std.specs.Prelude.{◌≡◌, ◌==◌};
ghost use Rattle.std.specs.List.{find};
ghost use Rattle.std.specs.Option.{option_copied, option_map};
ghost use Rattle.type_schema.specs.Views.{init_of, policy_of};
ghost use Rattle.type_typing.specs.Names.{plain_of};
ghost use Rattle.type_typing.specs.Outcome.{Gives};
ghost use Rattle.type_typing.specs.Refusals.{Refuses};
ghost use Rattle.type_specs.specs.InTurn.{GivesSeen};
ghost use Rattle.type_commands.specs.Resolved as rule;

use crate::thing::Thing;
use crate::users::first_user;
use std::alloc::Global;
use std::rc::Rc;
use text_ast::Txt;
use text_ast::limits::MOST_FIELDS;
use text_tree::{Init, Named, Policy, Reason};
use type_schema::{FieldNo, ModelInfo, ModelNo, Schema, StaticNo, TInit, TPolicy, TTy};
use type_specs::{one_more, policy_over};
use type_typing::{TypeErr, field_named, model_named, static_named, typed_init};

/// A policy that a command may give.
pub type Given = Option<Rc<TPolicy>>;

/// The number of the model of this name.
#[tactic(auto, unfolding(crate::specs::Resolved::known_model))]
pub fn known_model(schema: &Schema, x: &Named) -> Result<ModelNo, TypeErr>
    ensures { result ≡ rule.known_model (plain_of schema.now) x.now }
{
    match model_named(schema, x.name.bytes()) {
        Some(number) => Ok(number),
        None => Err(TypeErr::Unknown { at: x.at }),
    }
}

/// The number of the static of this name.
#[tactic(auto, unfolding(crate::specs::Resolved::known_static))]
pub fn known_static(schema: &Schema, x: &Named) -> Result<StaticNo, TypeErr>
    ensures { result ≡ rule.known_static (plain_of schema.now) x.now }
{
    match static_named(schema, x.name.bytes()) {
        Some(number) => Ok(number),
        None => Err(TypeErr::Unknown { at: x.at }),
    }
}

/// The number of the field of this name of the model of this number.
#[tactic(auto, unfolding(crate::specs::Resolved::known_field))]
pub fn known_field(schema: &Schema, model: ModelNo, x: &Named) -> Result<FieldNo, TypeErr>
    ensures { result ≡ rule.known_field (plain_of schema.now) model x.now }
{
    match field_named(schema, model, x.name.bytes()) {
        Some((number, _)) => Ok(number),
        None => Err(TypeErr::Unknown { at: x.at }),
    }
}

/// The model of this number.
pub fn model_at(models: &[ModelInfo], number: ModelNo) -> Option<&ModelInfo>
    ensures { option_copied result ≡ find (λ m. m.number == number) models.now }
{
    models.iter().find(|m| m.number == number)
}

/// How many fields the model of this number has.
fn field_count(schema: &Schema, model: ModelNo) -> usize
    ensures { result ≡ rule.field_count (plain_of schema.now) model }
{
    match model_at(schema.models.as_slice(), model) {
        Some(info) => info.fields.len(),
        None => 0,
    }
}

/// Whether the model of this number may have one more field of this name.
pub fn new_field_in(schema: &Schema, model: ModelNo, x: &Named) -> Result<(), TypeErr>
    ensures { result ≡ rule.new_field_in (plain_of schema.now) model x.now }
{
    let taken = field_named(schema, model, x.name.bytes()).is_some();
    one_more(taken, field_count(schema, model), MOST_FIELDS, x)
}

/// A policy that may be given, on records of the model.
#[tactic(auto, unfolding(crate::specs::Resolved::given))]
pub fn given(
    alloc: Global,
    schema: &Schema,
    model: ModelNo,
    policy: &Option<Policy>,
) -> Result<Given, TypeErr>
    ensures { GivesSeen (option_map (λ p. policy_of p.value))
        (rule.given (plain_of schema.now) model policy.now) result }
{
    match policy {
        Some(policy) => Ok(Some(policy_over(alloc, schema, model, policy)?)),
        None => Ok(None),
    }
}

/// The reason, which is a text that is not empty.
#[tactic(auto, unfolding(crate::specs::Resolved::reason_given))]
pub fn reason_given(alloc: Global, reason: &Reason) -> Result<Txt, TypeErr>
    ensures gives { Gives (rule.reason_given reason.now) result }
    ensures refused { Refuses (rule.reason_given reason.now) result }
{
    if reason.text.bytes().is_empty() {
        return Err(TypeErr::EmptyReason { at: reason.at });
    }
    Ok(reason.text.copy(alloc)?)
}

/// Whether nothing is left that uses the thing.
#[tactic(auto, unfolding(crate::specs::Resolved::unused))]
pub fn unused(schema: &Schema, thing: Thing, x: &Named) -> Result<(), TypeErr>
    ensures { result ≡ rule.unused (plain_of schema.now) thing x.now }
{
    match first_user(schema, thing) {
        Some(by) => Err(TypeErr::StillUsed { at: x.at, by }),
        None => Ok(()),
    }
}

/// What a field of the type holds at first on records of the model.
#[tactic(auto, unfolding(crate::specs::Resolved::init_over))]
pub fn init_over(
    alloc: Global,
    schema: &Schema,
    model: ModelNo,
    ty: TTy,
    x: &Named,
    init: &Init,
) -> Result<Rc<TInit>, TypeErr>
    ensures { GivesSeen (λ i. init_of i.value)
        (rule.init_over (plain_of schema.now) model ty x.now init.now) result }
{
    let typed = typed_init(alloc, schema, model, ty, x, init)?;
    Ok(Rc::new(alloc, typed)?)
}
