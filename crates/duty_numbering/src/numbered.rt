//! A schema with its numbers.

ghost use Rattle.std.specs.Prelude.{◌≡◌};
ghost use Rattle.type_schema.specs.SchemaViews.{schema_of};
ghost use Rattle.duty_meaning.specs.Structures as structure;
ghost use Rattle.duty_numbering.specs.Numbers.{numbers_of};

use crate::numbering::Numbering;
use form_formula::Range;
use type_schema::{ModelNo, Schema, TBase};

/// A schema with its numbers.
#[derive(Drop)]
pub(crate) struct Numbered<'a> {
    pub(crate) schema: &'a Schema,
    pub(crate) numbering: Numbering,
    pub(crate) ghost same: { numbering ≡ numbers_of (schema_of schema.now) },
}

impl Numbered<'_> {
    /// The sort of a model.
    pub(crate) fn sort_of(&self, m: ModelNo) -> u32
        ensures { result ≡ structure.sort_of (schema_of self.now.schema.now) m }
    {
        self.numbering.sort_of(m)
    }

    /// What a field of a base type gives.
    pub(crate) fn base_range(&self, b: TBase) -> Range
        ensures { result ≡ structure.base_range (schema_of self.now.schema.now) b }
    {
        match b {
            TBase::Bool => Range::Flag,
            TBase::Int => Range::Num,
            TBase::Text => Range::Str,
            TBase::Id(m) => Range::Rec(self.sort_of(m)),
        }
    }
}
