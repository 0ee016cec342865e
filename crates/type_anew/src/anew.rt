//! The schema of the tree of a schema.

ghost use Rattle.std.specs.Prelude.{◌≡◌, ◌≢◌, ◌<◌, ◌^◌, [], Err, IfErr, IfOk, OnOk, Ok};
ghost use Rattle.type_schema.specs.Proper.{IsProper};
ghost use Rattle.type_schema.specs.SchemaViews.{schema_of};
ghost use Rattle.type_typing.specs.declared.type_err.TypeErr.TheVariants.{OutOfMemory};
ghost use Rattle.type_specs.specs.Specs.{typed_spec};
ghost use Rattle.type_proper.specs.Steady.{IsSteady};
ghost use Rattle.data_records.specs.Renumbered.{HasNewNumbers};
ghost use Rattle.type_anew.specs.RenumberedAnew.{IsAnew};
ghost use Rattle.type_anew.specs.RetypedAnew.{HasPoliciesAnew, KeepsRights};
ghost use Rattle.type_anew.specs.Told.{IsTold};
ghost use Rattle.type_anew.specs.Room.{IsWithinNumbers, IsWithinSizes};
ghost use Rattle.type_scripts.specs.Counted.{counted};
ghost use Rattle.type_anew.specs.Specs.{written_spec};

use crate::{
    counts_stay, policies_come_anew, rights_stay, schemas_come_anew, spec_of, specs_are_told,
    specs_come_back, trees_are_typed, written_is_stripped,
};
use std::alloc::Global;
use text_tree::Spec;
use type_schema::Schema;
use type_scripts::type_spec;
use type_typing::TypeErr;

/// The schema of a specification, or the first fault of it.
#[tactic(auto, unfolding(type_typing::specs::Names::plain_of))]
fn schema_of_tree(alloc: Global, spec: &Spec) -> Result<Schema, TypeErr>
    ensures typed { IfOk result (λ s. typed_spec counted spec.now ≡ Ok (schema_of s)) }
    ensures refused { IfErr result (λ e. e ≢ OutOfMemory
        → typed_spec counted spec.now ≡ Err e) }
    ensures steady { IfOk result (λ s. IsSteady (schema_of s)) }
    ensures nothing_added { IfOk result (λ s. (schema_of s).added ≡ []) }
{
    type_spec(alloc, spec)
}

/// The next numbers of a schema have 32 bits.
fn next_numbers_fit(s: &Schema)
    ensures models { (schema_of s.now).next_model < 2 ^ 32 }
    ensures fields { (schema_of s.now).next_field < 2 ^ 32 }
{
    let _models = s.next_model;
    let _fields = s.next_field;
}

/// The same schema numbered anew: it is written as the same tree, and its statics, models and
/// fields have the numbers from 0 on in the order of the schema, the fields through all models. It
/// is what typing gives of that tree, it is proper, and no field of it is an added one. Its
/// policies are those of the schema with the new numbers, and give the rights that they gave, where
/// the schema is told by its tree, as one is that typing gave, also after commands. What typing of
/// the tree refuses is the answer; of a proper schema that is told by its tree and within the
/// limits it refuses nothing, so only want of memory is left.
pub fn renumber(alloc: Global, s: &Schema) -> Result<Schema, TypeErr>
    ensures same_tree { IfOk result (λ anew. written_spec (schema_of anew)
        ≡ written_spec (schema_of s.now)) }
    ensures numbered { IfOk result (λ anew. typed_spec counted (written_spec (schema_of s.now))
        ≡ Ok (schema_of anew)) }
    ensures steady { IfOk result (λ anew. IsSteady (schema_of anew)) }
    ensures told { IfOk result (λ anew. IsTold (schema_of anew)) }
    ensures nothing_added { IfOk result (λ anew. (schema_of anew).added ≡ []) }
    ensures in_order { IfOk result (λ anew. IsProper (schema_of s.now)
        → IsAnew (schema_of s.now) (schema_of anew)) }
    ensures few { OnOk result (HasNewNumbers (schema_of s.now)) }
    ensures policies { IfOk result (λ anew. IsProper (schema_of s.now)
        → IsTold (schema_of s.now) → HasPoliciesAnew (schema_of s.now) (schema_of anew)) }
    ensures rights { IfOk result (λ anew. IsProper (schema_of s.now)
        → IsTold (schema_of s.now) → KeepsRights (schema_of s.now) (schema_of anew)) }
    ensures refused { IfErr result (λ e. e ≢ OutOfMemory
        → typed_spec counted (written_spec (schema_of s.now)) ≡ Err e) }
    ensures memory_alone { IfErr result (λ e. IsProper (schema_of s.now)
        → IsTold (schema_of s.now) → IsWithinNumbers (schema_of s.now) → IsWithinSizes (schema_of s.now)
        → e ≡ OutOfMemory) }
{
    trees_are_typed();
    let spec = spec_of(alloc, s)?;
    let anew = schema_of_tree(alloc, &spec)?;
    next_numbers_fit(&anew);
    specs_come_back();
    written_is_stripped();
    specs_are_told();
    counts_stay();
    schemas_come_anew();
    policies_come_anew();
    rights_stay();
    Ok(anew)
}
