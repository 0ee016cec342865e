//! The fields that are functions, and those that are set relations.

ghost use Rattle.std.specs.Prelude.{◌≡◌, ℕ, [], ◌∷◌, ◌++◌, IfOk, OnOk, map, flat_map};
ghost use Rattle.type_schema.specs.SchemaViews.{field_info_of, model_info_of};
ghost use Rattle.duty_meaning.specs.Structures.{places_in};
ghost use Rattle.duty_numbering.specs.Numbers.{function_spots, place_at, relation_spots};

use std::alloc::{AllocError, Global};
use type_schema::{FieldInfo, FieldNo, ModelInfo, ModelNo, TTy};

/// A field of a model.
#[derive(Clone, Copy, Debug, PartialEq, Eq, Hash)]
pub struct Spot {
    pub model: ModelNo,
    pub field: FieldNo,
}

/// Fields that are functions, and fields that are set relations.
#[derive(Drop)]
pub(crate) struct Spots {
    pub(crate) functions: Vec<Spot>,
    pub(crate) relations: Vec<Spot>,
}

impl Spots {
    /// Puts a field of a model last.
    fn add_field(&mut self, model: ModelNo, field: &FieldInfo) -> Result<(), AllocError>
        ensures functions { OnOk result (self.new.functions.items ≡ self.old.functions.items
            ++ function_spots (place_at model (field_info_of field.now) ∷ [])) }
        ensures relations { OnOk result (self.new.relations.items ≡ self.old.relations.items
            ++ relation_spots (place_at model (field_info_of field.now) ∷ [])) }
    {
        let spot = Spot {
            model,
            field: field.number,
        };
        match field.ty {
            TTy::Set(_) => self.relations.push(spot)?,
            TTy::Plain(_) | TTy::Opt(_) => self.functions.push(spot)?,
        }
        Ok(())
    }

    /// Puts the fields of a model last.
    fn add_model(&mut self, model: &ModelInfo) -> Result<(), AllocError>
        ensures functions { OnOk result (self.new.functions.items
            ≡ self.old.functions.items ++ function_spots (places_in (model_info_of model.now))) }
        ensures relations { OnOk result (self.new.relations.items
            ≡ self.old.relations.items ++ relation_spots (places_in (model_info_of model.now))) }
    {
        for field in model.fields.as_slice() {
            self.add_field(model.number, field)?;
        }
        Ok(())
    }
}

/// The fields of the models.
pub(crate) fn spots_of(alloc: Global, models: &[ModelInfo]) -> Result<Spots, AllocError>
    ensures functions { IfOk result (λ spots. spots.functions.items
        ≡ function_spots (flat_map places_in (map model_info_of models.now))) }
    ensures relations { IfOk result (λ spots. spots.relations.items
        ≡ relation_spots (flat_map places_in (map model_info_of models.now))) }
{
    let mut spots = Spots {
        functions: Vec::new(alloc),
        relations: Vec::new(alloc),
    };
    for model in models {
        spots.add_model(model)?;
    }
    Ok(spots)
}
