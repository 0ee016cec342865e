//! A structure with the numbers of its schema.

ghost use Rattle.std.specs.Prelude.{◌≡◌, [], None, option_copied, slice_index_or};
ghost use Rattle.duty_meaning.specs.Structures.{function_of, relation_of, sort_of};
ghost use Rattle.form_formula.specs.Truth.{entry, size_of};
ghost use Rattle.duty_numbering.specs.Numbers.{numbers_of};
ghost use Rattle.type_schema.specs.SchemaViews.{schema_of};

use duty_numbering::Numbering;
use form_formula::{SVal, Structure};
use sqlite_items::Items;
use type_schema::{FieldNo, ModelNo, Schema};

/// How many elements a sort has.
fn size_in(structure: &Structure, sort: u32) -> u32
    ensures { result ≡ size_of structure.now sort }
{
    match structure.sizes.get(sort as usize) {
        Some(size) => *size,
        None => 0,
    }
}

/// What a place of a table holds, as a place of its own.
fn as_entry(entry: &Option<SVal>) -> Option<&SVal>
    ensures { option_copied result ≡ entry.now }
{
    match entry {
        Some(value) => Some(value),
        None => None,
    }
}

/// What a place of a table holds.
fn held(table: &Items<Option<SVal>>, x: u32) -> Option<&SVal>
    ensures { option_copied result ≡ slice_index_or table.now x None }
{
    match table.get(x as usize) {
        Some(entry) => as_entry(entry),
        None => None,
    }
}

/// What a function has at an element.
fn entry_in(structure: &Structure, f: u32, x: u32) -> Option<&SVal>
    ensures { option_copied result ≡ entry structure.now f x }
{
    match structure.funs.get(f as usize) {
        Some(table) => held(table, x),
        None => None,
    }
}

/// The pairs of a set relation.
fn pairs_in(structure: &Structure, r: u32) -> &[(u32, u32)]
    ensures { result.now ≡ slice_index_or structure.now.sets r [] }
{
    match structure.sets.get(r as usize) {
        Some(pairs) => pairs.as_slice(),
        None => &[],
    }
}

/// A structure over the signature of a schema, with the numbers of the schema.
#[derive(Drop)]
pub(crate) struct Source<'a> {
    pub(crate) schema: &'a Schema,
    pub(crate) structure: &'a Structure,
    pub(crate) numbering: Numbering,
    pub(crate) ghost same: { numbering ≡ numbers_of (schema_of schema.now) },
}

impl Source<'_> {
    /// How many elements the sort of a model has.
    pub(crate) fn size_of(&self, m: ModelNo) -> u32
        ensures { result
            ≡ size_of self.now.structure.now (sort_of (schema_of self.now.schema.now) m) }
    {
        size_in(self.structure, self.numbering.sort_of(m))
    }

    /// What the function of a field has at an element.
    pub(crate) fn entry(&self, m: ModelNo, f: FieldNo, x: u32) -> Option<&SVal>
        ensures { option_copied result ≡ entry self.now.structure.now
            (function_of (schema_of self.now.schema.now) m f) x }
    {
        entry_in(self.structure, self.numbering.function_of(m, f), x)
    }

    /// The pairs of the set relation of a field.
    pub(crate) fn pairs(&self, m: ModelNo, f: FieldNo) -> &[(u32, u32)]
        ensures { result.now ≡ slice_index_or self.now.structure.now.sets
            (relation_of (schema_of self.now.schema.now) m f) [] }
    {
        pairs_in(self.structure, self.numbering.relation_of(m, f))
    }
}
