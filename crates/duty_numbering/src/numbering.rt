//! Numbers of sorts, functions and set relations.

ghost use Rattle.std.specs.Prelude.{◌≡◌, IfOk, length, map};
ghost use Rattle.type_schema.specs.Schema as plain;
ghost use Rattle.type_schema.specs.SchemaViews.{model_info_of, schema_of};
ghost use Rattle.type_schema.specs.Proper.{model_numbers as numbers_in};
ghost use Rattle.duty_meaning.specs.Structures as structure;
ghost use Rattle.duty_numbering.specs.Numbers.{function_number, numbers_of, relation_number};
ghost use Rattle.duty_numbering.specs.Numbers.{sort_number};

use crate::places::Places;
use crate::spots::{Spot, spots_of};
use std::alloc::{AllocError, Global};
use std::marker::Model;
use type_schema::{FieldNo, ModelInfo, ModelNo, Schema};

/// The numbers of the sorts, functions and set relations of a schema, each found in near constant
/// time. Contracts see the lists of which they are the places.
#[derive(Drop)]
pub struct Numbering {
    sorts: Places<ModelNo>,
    functions: Places<Spot>,
    relations: Places<Spot>,
}

impl Model for Numbering {
    ghost use Rattle.duty_numbering.specs.Numbers.{Numbers};

    ghost Value = { Numbers };

    ghost view = { λ n. record {
      models = n.sorts;
      functions = n.functions;
      relations = n.relations;
    } };
}

/// The numbers of the models.
fn model_numbers(alloc: Global, models: &[ModelInfo]) -> Result<Vec<ModelNo>, AllocError>
    ensures { IfOk result (λ numbers. numbers.items ≡ numbers_in (map model_info_of models.now)) }
{
    let mut numbers = Vec::new(alloc);
    for model in models {
        numbers.push(model.number)?;
    }
    Ok(numbers)
}

impl Numbering {
    /// The numbers of the schema. Schemas with four thousand million fields count as memory that is
    /// not there.
    pub fn of(alloc: Global, s: &Schema) -> Result<Numbering, AllocError>
        ensures { IfOk result (λ n. n ≡ numbers_of (schema_of s.now)) }
    {
        let models = model_numbers(alloc, s.models.as_slice())?;
        let sorts = Places::of(alloc, models)?;
        let spots = spots_of(alloc, s.models.as_slice())?;
        let functions = Places::of(alloc, spots.functions)?;
        let relations = Places::of(alloc, spots.relations)?;
        Ok(Numbering {
            sorts,
            functions,
            relations,
        })
    }

    /// How many sorts there are.
    pub fn sorts(&self) -> u32
        ensures { result ≡ length self.now.models }
    {
        self.sorts.len()
    }

    /// How many functions there are.
    pub fn functions(&self) -> u32
        ensures { result ≡ length self.now.functions }
    {
        self.functions.len()
    }

    /// How many set relations there are.
    pub fn relations(&self) -> u32
        ensures { result ≡ length self.now.relations }
    {
        self.relations.len()
    }

    /// The sort that a model is. If there is no such model, it is the number of sorts.
    pub fn sort_of(&self, m: ModelNo) -> u32
        ensures number { result ≡ sort_number self.now m }
        ensures of_schema { (s : plain.Schema) → self.now ≡ numbers_of s
            → result ≡ structure.sort_of s m }
    {
        self.sorts.place_of(m)
    }

    /// The function that a field is. If there is no such function, it is the number of functions.
    pub fn function_of(&self, m: ModelNo, f: FieldNo) -> u32
        ensures number { result ≡ function_number self.now m f }
        ensures of_schema { (s : plain.Schema) → self.now ≡ numbers_of s
            → result ≡ structure.function_of s m f }
    {
        self.functions.place_of(Spot { model: m, field: f })
    }

    /// The set relation that a field is. If there is none, it is the number of set relations.
    pub fn relation_of(&self, m: ModelNo, f: FieldNo) -> u32
        ensures number { result ≡ relation_number self.now m f }
        ensures of_schema { (s : plain.Schema) → self.now ≡ numbers_of s
            → result ≡ structure.relation_of s m f }
    {
        self.relations.place_of(Spot { model: m, field: f })
    }
}
