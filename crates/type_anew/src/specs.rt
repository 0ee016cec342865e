//! Whole schemas.

ghost use Rattle.std.specs.Prelude.{◌≡◌, IfOk, map};
ghost use Rattle.type_schema.specs.SchemaViews.{model_info_of, schema_of, static_info_of};
ghost use Rattle.type_anew.specs.Names as name;
ghost use Rattle.type_anew.specs.Names.{names_in};
ghost use Rattle.type_anew.specs.Specs as spec;

use crate::models::written_model;
use crate::names::named;
use sqlite_items::Items;
use std::alloc::{AllocError, Global};
use text_tree::{ModelDef, Named, Spec};
use type_schema::{ModelInfo, Schema, StaticInfo};

/// Statics as trees.
fn written_statics(alloc: Global, statics: &[StaticInfo]) -> Result<Items<Named>, AllocError>
    ensures { IfOk result (λ xs. xs
        ≡ map (λ n. name.named n.name) (map static_info_of statics.now)) }
{
    let mut all = Vec::new(alloc);
    for info in statics {
        let name = named(alloc, &info.name)?;
        all.push(name)?;
    }
    Ok(Items::from_vec(all))
}

/// Models as trees.
fn written_models(
    alloc: Global,
    s: &Schema,
    models: &[ModelInfo],
) -> Result<Items<ModelDef>, AllocError>
    ensures { IfOk result (λ xs. xs
        ≡ map (spec.written_model (names_in (schema_of s.now))) (map model_info_of models.now)) }
{
    let mut all = Vec::new(alloc);
    for info in models {
        let model = written_model(alloc, s, info)?;
        all.push(model)?;
    }
    Ok(Items::from_vec(all))
}

/// The tree of a schema, with all offsets 0. Of what typing gives it is the tree that was typed,
/// and after commands that tree with what they changed. A number that names nothing counts as
/// memory that is not there; a proper schema has none.
pub fn spec_of(alloc: Global, s: &Schema) -> Result<Spec, AllocError>
    ensures { IfOk result (λ tree. tree ≡ spec.written_spec (schema_of s.now)) }
{
    let statics = written_statics(alloc, s.statics.as_slice())?;
    let models = written_models(alloc, s, s.models.as_slice())?;
    Ok(Spec { statics, models })
}
