//! The signature of a schema.

ghost use Rattle.std.specs.Prelude.{◌≡◌, [], ◌∷◌, ◌++◌, IfOk, OnOk, map};
ghost use Rattle.type_schema.specs.SchemaViews.{field_info_of, model_info_of, schema_of};
ghost use Rattle.duty_meaning.specs.Over.{IsSignatureOf};
ghost use Rattle.duty_meaning.specs.Structures.{function_signatures, places_in, relation_signatures};
ghost use Rattle.duty_numbering.specs.Numbers.{place_at};
ghost use Rattle.duty_numbering.specs.Signatures.{TypesAreThere, functions_at, relations_at};

use crate::numbered::Numbered;
use crate::numbering::Numbering;
use form_formula::{FunSig, SetSig, Signature};
use sqlite_items::Items;
use std::alloc::{AllocError, Global};
use type_schema::{FieldInfo, ModelInfo, ModelNo, Schema, TTy};

/// The functions and set relations of some fields.
#[derive(Drop)]
struct Signatures {
    functions: Vec<FunSig>,
    relations: Vec<SetSig>,
}

impl Signatures {
    /// Puts a field of a model last.
    fn add_field(
        &mut self,
        numbered: &Numbered<'_>,
        model: ModelNo,
        field: &FieldInfo,
    ) -> Result<(), AllocError>
        ensures functions { OnOk result (self.new.functions.items ≡ self.old.functions.items
            ++ functions_at (schema_of numbered.now.schema.now)
            (place_at model (field_info_of field.now) ∷ [])) }
        ensures relations { OnOk result (self.new.relations.items ≡ self.old.relations.items
            ++ relations_at (schema_of numbered.now.schema.now)
            (place_at model (field_info_of field.now) ∷ [])) }
    {
        let from = numbered.sort_of(model);
        match field.ty {
            TTy::Set(m) => {
                let to = numbered.sort_of(m);
                self.relations.push(SetSig { from, to })?;
            }
            TTy::Plain(b) => {
                let to = numbered.base_range(b);
                let partial = false;
                self.functions.push(FunSig { from, to, partial })?;
            }
            TTy::Opt(b) => {
                let to = numbered.base_range(b);
                let partial = true;
                self.functions.push(FunSig { from, to, partial })?;
            }
        }
        Ok(())
    }

    /// Puts the fields of a model last.
    fn add_model(&mut self, numbered: &Numbered<'_>, model: &ModelInfo) -> Result<(), AllocError>
        ensures functions { OnOk result (self.new.functions.items ≡ self.old.functions.items
            ++ functions_at (schema_of numbered.now.schema.now)
            (places_in (model_info_of model.now))) }
        ensures relations { OnOk result (self.new.relations.items ≡ self.old.relations.items
            ++ relations_at (schema_of numbered.now.schema.now)
            (places_in (model_info_of model.now))) }
    {
        for field in model.fields.as_slice() {
            self.add_field(numbered, model.number, field)?;
        }
        Ok(())
    }
}

/// The functions and set relations of a schema.
fn signatures_of(alloc: Global, numbered: &Numbered<'_>) -> Result<Signatures, AllocError>
    ensures functions { IfOk result (λ signatures. signatures.functions.items
        ≡ function_signatures (schema_of numbered.now.schema.now)) }
    ensures relations { IfOk result (λ signatures. signatures.relations.items
        ≡ relation_signatures (schema_of numbered.now.schema.now)) }
{
    let mut signatures = Signatures {
        functions: Vec::new(alloc),
        relations: Vec::new(alloc),
    };
    for model in numbered.schema.models.as_slice() {
        signatures.add_model(numbered, model)?;
    }
    Ok(signatures)
}

/// The signature of a schema: its models are the sorts, and its fields are the functions and the
/// set relations.
pub fn signature_of(alloc: Global, s: &Schema) -> Result<Signature, AllocError>
    requires { TypesAreThere (schema_of s.now) }
    ensures { IfOk result (λ g. IsSignatureOf (schema_of s.now) g) }
{
    let numbering = Numbering::of(alloc, s)?;
    let numbered = Numbered {
        schema: s,
        numbering,
    };
    let found = signatures_of(alloc, &numbered)?;
    let sorts = numbered.numbering.sorts();
    let _functions = numbered.numbering.functions();
    let _relations = numbered.numbering.relations();
    Ok(Signature {
        sorts,
        funs: Items::from_vec(found.functions),
        sets: Items::from_vec(found.relations),
    })
}
