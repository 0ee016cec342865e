//! The schema of start databases, and added fields.

ghost use Rattle.std.specs.Prelude.{◌≡◌, ◌&&◌, ◌==◌, find};
ghost use Rattle.std.specs.Option.{option_copied, option_map};
ghost use Rattle.type_schema.specs.Schema.{Schema as AnySchema};
ghost use Rattle.duty_meaning.specs.Cases.{holds_truth, is_truth_type};
ghost use Rattle.type_schema.specs.SchemaViews.{schema_of};
ghost use Rattle.type_schema.specs.Schema.{known_type, type_of};
ghost use Rattle.duty_meaning.specs.Structures.{sort_of, function_of, relation_of};
ghost use Rattle.duty_numbering.specs.Numbers.{numbers_of};
ghost use Rattle.duty_writer.specs.declared.writer.Mode.TheVariants.{Build};

use duty_numbering::Numbering;
use duty_writer::Mode;
use std::rc::Rc;
use type_schema::{
    FieldInfo, FieldNo, ModelInfo, ModelNo, RemovedField, Schema, TBase, TInit, TTy,
};

/// A schema with its numbers, and the fields that a script added to it.
#[derive(Drop)]
pub struct Start<'a> {
    /// The schema.
    pub schema: &'a Schema,
    /// Its numbers.
    pub numbering: &'a Numbering,
    /// The fields that the script added, in order.
    pub added: &'a [(ModelNo, FieldNo, Rc<TInit>)],
    pub ghost numbered: { numbering.now ≡ numbers_of (schema_of schema.now) },
}

impl Start<'_> {
    /// The sort that a model is.
    pub fn sort_of(&self, m: ModelNo) -> u32
        ensures { result ≡ sort_of (schema_of self.now.schema.now) m }
    {
        self.numbering.sort_of(m)
    }

    /// The function that a field is.
    pub fn function_of(&self, m: ModelNo, f: FieldNo) -> u32
        ensures { result ≡ function_of (schema_of self.now.schema.now) m f }
    {
        self.numbering.function_of(m, f)
    }

    /// The set relation that a field is.
    pub fn relation_of(&self, m: ModelNo, f: FieldNo) -> u32
        ensures { result ≡ relation_of (schema_of self.now.schema.now) m f }
    {
        self.numbering.relation_of(m, f)
    }

    /// The function that a field is, where formulas are written. Where they are only counted it
    /// does not matter, and is not looked up.
    pub(crate) fn function_for(&self, mode: Mode, m: ModelNo, f: FieldNo) -> u32
        ensures { mode ≡ Build → result ≡ function_of (schema_of self.now.schema.now) m f }
    {
        match mode {
            Mode::Build => self.function_of(m, f),
            Mode::Count => 0,
        }
    }

    /// The set relation that a field is, where formulas are written.
    pub(crate) fn relation_for(&self, mode: Mode, m: ModelNo, f: FieldNo) -> u32
        ensures { mode ≡ Build → result ≡ relation_of (schema_of self.now.schema.now) m f }
    {
        match mode {
            Mode::Build => self.relation_of(m, f),
            Mode::Count => 0,
        }
    }

    /// Whether a field holds truth values, or did before a command removed it.
    pub fn is_truth_field(&self, m: ModelNo, f: FieldNo) -> bool
        ensures { result ≡ holds_truth (schema_of self.now.schema.now) m f }
    {
        match known_type(self.schema, m, f) {
            Some(ty) => is_truth_type(ty),
            None => false,
        }
    }
}

/// The type of a field that the schema has or had.
fn known_type(schema: &Schema, m: ModelNo, f: FieldNo) -> Option<TTy>
    ensures { result ≡ known_type (schema_of schema.now) m f }
{
    match type_of(schema, m, f) {
        Some(ty) => Some(ty),
        None => removed_type(schema.removed.as_slice(), m, f),
    }
}

/// The type of a field of the schema.
fn type_of(schema: &Schema, m: ModelNo, f: FieldNo) -> Option<TTy>
    ensures { result ≡ type_of (schema_of schema.now) m f }
{
    match model_at(schema.models.as_slice(), m) {
        Some(model) => type_in(model, f),
        None => None,
    }
}

/// The type of a field of a model.
fn type_in(model: &ModelInfo, f: FieldNo) -> Option<TTy>
    ensures { result ≡ option_map (λ i. i.ty) (find (λ i. i.number == f) model.now.fields) }
{
    match field_at(model.fields.as_slice(), f) {
        Some(field) => Some(field.ty),
        None => None,
    }
}

/// The type of a field that commands removed.
fn removed_type(removed: &[RemovedField], m: ModelNo, f: FieldNo) -> Option<TTy>
    ensures { result ≡ option_map (λ r. r.ty)
        (find (λ r. r.model == m && r.field == f) removed.now) }
{
    match removed_at(removed, m, f) {
        Some(field) => Some(field.ty),
        None => None,
    }
}

/// The model of this number.
fn model_at(models: &[ModelInfo], number: ModelNo) -> Option<&ModelInfo>
    ensures { option_copied result ≡ find (λ m. m.number == number) models.now }
{
    models.iter().find(|m| m.number == number)
}

/// The field of this number.
fn field_at(fields: &[FieldInfo], number: FieldNo) -> Option<&FieldInfo>
    ensures { option_copied result ≡ find (λ f. f.number == number) fields.now }
{
    fields.iter().find(|f| f.number == number)
}

/// What was removed last under these numbers.
fn removed_at(removed: &[RemovedField], m: ModelNo, f: FieldNo) -> Option<&RemovedField>
    ensures { option_copied result
        ≡ find (λ r. r.model == m && r.field == f) removed.now }
{
    removed.iter().find(|r| r.model == m && r.field == f)
}

/// Whether values of the type are truth values, or options of such.
fn is_truth_type(ty: TTy) -> bool
    ensures { (s : AnySchema) → result ≡ is_truth_type s ty }
{
    match ty {
        TTy::Plain(TBase::Bool) | TTy::Opt(TBase::Bool) => true,
        TTy::Plain(TBase::Int | TBase::Text | TBase::Id(_))
        | TTy::Set(_)
        | TTy::Opt(TBase::Int | TBase::Text | TBase::Id(_)) => false,
    }
}
