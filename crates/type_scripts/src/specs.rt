//! Specifications.

ghost use Rattle.std.specs.Prelude.{◌≡◌, [], IfOk};
ghost use Rattle.type_schema.specs.SchemaViews.{schema_of};
ghost use Rattle.type_typing.specs.Names.{plain_of};
ghost use Rattle.type_typing.specs.Outcome.{Gives};
ghost use Rattle.type_specs.specs.InTurn.{GivesSeen};
ghost use Rattle.type_specs.specs.Sizes.{models_are_small};
ghost use Rattle.type_specs.specs.Specs.{typed_spec};
ghost use Rattle.type_proper.specs.Steady.{IsSteady};
ghost use Rattle.type_scripts.specs.Counted.{counted};

use crate::places::models_places;
use crate::sizes::Sizes;
use duty_numbering::Numbering;
use std::alloc::Global;
use text_tree::{ModelDef, Spec};
use type_proper::{models_have_literals, specs_are_steady};
use type_schema::Schema;
use type_specs::resolved_spec;
use type_typing::TypeErr;

/// The policies of the schema of these models are within the limit.
#[tactic(auto, using(crate::proofs::Counted::small_counted), unfolding(type_specs::specs::Sizes::models_are_small, type_typing::specs::Names::plain_of))]
fn models_are_small(alloc: Global, schema: &Schema, defs: &[ModelDef]) -> Result<(), TypeErr>
    ensures { Gives (models_are_small counted (plain_of schema.now) (plain_of schema.now).models
        defs.now) result }
{
    let places = models_places(alloc, defs)?;
    let numbering = Numbering::of(alloc, schema)?;
    let sizes = Sizes {
        schema,
        numbering: &numbering,
    };
    sizes.all_models(alloc, schema.models.as_slice(), places.as_slice())
}

/// The schema of a specification: its statics, models and fields are numbered in its order; or the
/// first fault and its place.
#[tactic(auto, unfolding(type_specs::specs::Specs::typed_spec))]
pub fn type_spec(alloc: Global, spec: &Spec) -> Result<Schema, TypeErr>
    ensures typed { GivesSeen plain_of (typed_spec counted spec.now) result }
    ensures steady { IfOk result (λ s. IsSteady (schema_of s)) }
    ensures nothing_added { IfOk result (λ s. (schema_of s).added ≡ []) }
{
    let schema = resolved_spec(alloc, spec)?;
    models_are_small(alloc, &schema, spec.models.as_slice())?;
    models_have_literals(schema.models.as_slice());
    specs_are_steady();
    Ok(schema)
}
