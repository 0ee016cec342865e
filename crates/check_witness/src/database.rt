//! The database of a structure.

ghost use Rattle.std.specs.Prelude.{◌≡◌, IfOk};
ghost use Rattle.type_schema.specs.SchemaViews.{schema_of};
ghost use Rattle.check_witness.specs.Built.{built};

use crate::source::Source;
use data_records::Database;
use duty_numbering::Numbering;
use form_formula::Structure;
use std::alloc::{AllocError, Global};
use type_schema::Schema;

/// The database of a structure over the signature of a schema: element x of a model's sort is the
/// record with the id x + 1.
///
/// It takes time in the order of the records and their fields, and for each set relation of its
/// pairs times the elements of both sorts.
pub fn build(alloc: Global, structure: &Structure, s: &Schema) -> Result<Database, AllocError>
    ensures { IfOk result (λ d. d ≡ built (schema_of s.now) structure.now) }
{
    let numbering = Numbering::of(alloc, s)?;
    let source = Source {
        schema: s,
        structure,
        numbering,
    };
    let tables = source.tables(alloc)?;
    Database::of_tables(tables)
}
