//! That policies and initialisers are within the limit. The first above it, in the order of the
//! text, is the fault, and nothing after it is counted.

ghost use Rattle.std.specs.Prelude.{◌≡◌, ◌∷◌, ◌++◌, [], map, option_to_list};
ghost use Rattle.std.specs.List.{flat_map};
ghost use Rattle.std.specs.Option.{option_map};
ghost use Rattle.type_schema.specs.SchemaViews.{command_of, field_info_of, model_info_of};
ghost use Rattle.type_schema.specs.SchemaViews.{schema_of};
ghost use Rattle.type_schema.specs.Views.{init_of, policy_of};
ghost use Rattle.duty_meaning.specs.Sizes.{init_size, policy_size};
ghost use Rattle.type_typing.specs.Outcome.{Gives};
ghost use Rattle.type_specs.specs.InTurn.{GivesSeen, seen_as};
ghost use Rattle.type_specs.specs.Sizes as spec;
ghost use Rattle.type_commands.specs.Commands as rule;
ghost use Rattle.type_scripts.specs.Counted.{counted};
ghost use Rattle.type_scripts.specs.Counting.{counted_at};

use crate::sizes::Sizes;
use std::alloc::Global;
use std::rc::Rc;
use type_schema::{FieldInfo, ModelInfo, TCommand, TInit, TPolicy, TTy};
use type_specs::limits::MOST_POLICY_SIZE;
use type_typing::TypeErr;

/// The size is within the limit; a fault stands at the place.
fn is_small(size: u32, at: u32) -> Result<(), TypeErr>
    ensures { result ≡ spec.is_small size at }
{
    if size <= MOST_POLICY_SIZE {
        Ok(())
    } else {
        Err(TypeErr::Expanded { at, count: size })
    }
}

/// The size is within the limit, at the next of the places; gives those that are left.
#[tactic(auto, unfolding(crate::specs::Counting::counted_at))]
fn next_is_small(size: u32, places: &[u32]) -> Result<&[u32], TypeErr>
    ensures { seen_as (λ left. left.now) result ≡ counted_at (size ∷ []) places.now }
{
    match places {
        [] => Ok(places),
        [at, left @ ..] => {
            is_small(size, *at)?;
            Ok(left)
        }
    }
}

/// Each of these takes the places that are next, and gives those that are left.
impl Sizes<'_> {
    /// A policy is small.
    #[tactic(auto, using(type_specs::proofs::Seen::seen_gives))]
    fn small_policy<'p>(
        &self,
        alloc: Global,
        policy: &TPolicy,
        places: &'p [u32],
    ) -> Result<&'p [u32], TypeErr>
        ensures { GivesSeen (λ left. left.now) (counted_at
            (policy_size (schema_of self.now.schema.now) (policy_of policy.now) ∷ [])
            places.now) result }
    {
        let size = self.policy(alloc, policy)?;
        next_is_small(size, places)
    }

    /// An initialiser of a field of the type is small.
    #[tactic(auto, using(type_specs::proofs::Seen::seen_gives))]
    fn small_init<'p>(
        &self,
        alloc: Global,
        ty: TTy,
        init: &TInit,
        places: &'p [u32],
    ) -> Result<&'p [u32], TypeErr>
        ensures { GivesSeen (λ left. left.now) (counted_at
            (init_size (schema_of self.now.schema.now) ty (init_of init.now) ∷ [])
            places.now) result }
    {
        let size = self.init(alloc, ty, init)?;
        next_is_small(size, places)
    }

    /// The policies of a field are small.
    #[tactic(auto, using(crate::proofs::Counted::next_counted))]
    fn small_field<'p>(
        &self,
        alloc: Global,
        field: &FieldInfo,
        places: &'p [u32],
    ) -> Result<&'p [u32], TypeErr>
        ensures { GivesSeen (λ left. left.now) (counted_at
            (spec.field_sizes counted (schema_of self.now.schema.now) (field_info_of field.now))
            places.now) result }
    {
        let left = self.small_policy(alloc, &field.read, places)?;
        self.small_policy(alloc, &field.write, left)
    }

    /// The policies of fields are small.
    fn small_fields<'p>(
        &self,
        alloc: Global,
        fields: &[FieldInfo],
        places: &'p [u32],
    ) -> Result<&'p [u32], TypeErr>
        ensures { GivesSeen (λ left. left.now) (counted_at
            (flat_map (spec.field_sizes counted (schema_of self.now.schema.now))
            (map field_info_of fields.now)) places.now) result }
    {
        let mut left = places;
        for field in fields {
            left = self.small_field(alloc, field, left)?;
        }
        Ok(left)
    }

    /// The policies of a model are small.
    #[tactic(auto, using(crate::proofs::Counted::next_counted))]
    fn small_model<'p>(
        &self,
        alloc: Global,
        model: &ModelInfo,
        places: &'p [u32],
    ) -> Result<&'p [u32], TypeErr>
        ensures { GivesSeen (λ left. left.now) (counted_at
            (spec.model_sizes counted (schema_of self.now.schema.now) (model_info_of model.now))
            places.now) result }
    {
        let left = self.small_policy(alloc, &model.create, places)?;
        let left = self.small_policy(alloc, &model.delete, left)?;
        self.small_fields(alloc, model.fields.as_slice(), left)
    }

    /// The policies of models are small, which have these places.
    #[tactic(auto, using(crate::proofs::Counted::small_counted))]
    pub(crate) fn all_models(
        &self,
        alloc: Global,
        models: &[ModelInfo],
        places: &[u32],
    ) -> Result<(), TypeErr>
        ensures { Gives (spec.are_small
            (flat_map (spec.model_sizes counted (schema_of self.now.schema.now))
            (map model_info_of models.now)) places.now) result }
    {
        self.small_models(alloc, models, places)?;
        Ok(())
    }

    /// What a command gives is small, which has these places.
    #[tactic(auto, using(crate::proofs::Counted::small_counted))]
    pub(crate) fn whole_command(
        &self,
        alloc: Global,
        command: &TCommand,
        places: &[u32],
    ) -> Result<(), TypeErr>
        ensures { Gives (spec.are_small
            (rule.command_sizes counted (schema_of self.now.schema.now) (command_of command.now))
            places.now) result }
    {
        self.small_command(alloc, command, places)?;
        Ok(())
    }

    /// The policies of models are small.
    fn small_models<'p>(
        &self,
        alloc: Global,
        models: &[ModelInfo],
        places: &'p [u32],
    ) -> Result<&'p [u32], TypeErr>
        ensures { GivesSeen (λ left. left.now) (counted_at
            (flat_map (spec.model_sizes counted (schema_of self.now.schema.now))
            (map model_info_of models.now)) places.now) result }
    {
        let mut left = places;
        for model in models {
            left = self.small_model(alloc, model, left)?;
        }
        Ok(left)
    }

    /// A policy is small where it is given.
    #[tactic(auto, using(crate::proofs::Counted::none_counted))]
    fn small_given<'p>(
        &self,
        alloc: Global,
        given: &Option<Rc<TPolicy>>,
        places: &'p [u32],
    ) -> Result<&'p [u32], TypeErr>
        ensures { GivesSeen (λ left. left.now) (counted_at
            (map (policy_size (schema_of self.now.schema.now))
            (option_to_list (option_map (λ p. policy_of p.value) given.now))) places.now) result }
    {
        match given {
            Some(policy) => self.small_policy(alloc, policy, places),
            None => Ok(places),
        }
    }

    /// Two policies are small where they are given.
    #[tactic(auto, using(crate::proofs::Counted::given_counted))]
    fn small_both<'p>(
        &self,
        alloc: Global,
        one: &Option<Rc<TPolicy>>,
        other: &Option<Rc<TPolicy>>,
        places: &'p [u32],
    ) -> Result<&'p [u32], TypeErr>
        ensures { GivesSeen (λ left. left.now) (counted_at
            (rule.given_sizes counted (schema_of self.now.schema.now)
            (option_map (λ p. policy_of p.value) one.now)
            (option_map (λ p. policy_of p.value) other.now)) places.now) result }
    {
        let left = self.small_given(alloc, one, places)?;
        self.small_given(alloc, other, left)
    }

    /// The policies and the initialiser of a new field are small.
    #[tactic(auto, using(crate::proofs::Counted::field_counted))]
    fn small_new_field<'p>(
        &self,
        alloc: Global,
        field: &FieldInfo,
        init: &Rc<TInit>,
        places: &'p [u32],
    ) -> Result<&'p [u32], TypeErr>
        ensures { let s = schema_of self.now.schema.now in
            GivesSeen (λ left. left.now) (counted_at
            (spec.field_sizes counted s (field_info_of field.now)
            ++ init_size s field.now.ty (init_of init.now.value) ∷ []) places.now) result }
    {
        let left = self.small_field(alloc, field, places)?;
        self.small_init(alloc, field.ty, init, left)
    }

    /// What a command gives is small.
    #[tactic(auto, using(crate::proofs::Counted::none_counted))]
    fn small_command<'p>(
        &self,
        alloc: Global,
        command: &TCommand,
        places: &'p [u32],
    ) -> Result<&'p [u32], TypeErr>
        ensures { GivesSeen (λ left. left.now) (counted_at
            (rule.command_sizes counted (schema_of self.now.schema.now) (command_of command.now))
            places.now) result }
    {
        match command {
            TCommand::CreateModel(model) => self.small_model(alloc, model, places),
            TCommand::AddField(_, field, init) => {
                self.small_new_field(alloc, field, init, places)
            }
            TCommand::UpdateFieldPolicy(_, _, one, other)
            | TCommand::WeakenFieldPolicy(_, _, one, other, _)
            | TCommand::UpdatePolicy(_, one, other)
            | TCommand::WeakenPolicy(_, one, other, _) => {
                self.small_both(alloc, one, other, places)
            }
            TCommand::DeleteModel(_)
            | TCommand::AddStatic(_)
            | TCommand::RemoveStatic(_)
            | TCommand::AddPrincipal(_)
            | TCommand::RemoveField(..) => Ok(places),
        }
    }
}
