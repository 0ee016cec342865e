//! Schemas numbered anew, as they are stored.

ghost use Rattle.std.specs.Prelude.{◌≡◌, IfOk, OnOk};
ghost use Rattle.type_schema.specs.SchemaViews.{schema_of};
ghost use Rattle.type_typing.specs.declared.type_err.TypeErr.TheVariants.{OutOfMemory};
ghost use Rattle.data_records.specs.Renumbered.{HasNewNumbers};
ghost use Rattle.store_keeper.specs.Stored.{IsSettled};
ghost use Rattle.store_apply.specs.Settling.{IsRenumbered, MaySettle};

use std::alloc::{AllocError, Global};
use store_keeper::renumbered_are_settled;
use type_anew::renumber;
use type_schema::Schema;
use type_typing::TypeErr;

/// Want of memory, which is the only refusal.
fn wanting(_err: TypeErr) -> AllocError
    requires { _err ≡ OutOfMemory }
{
    AllocError
}

/// The schema numbered anew, which may be stored, and by which a database over the schema may be
/// numbered anew.
pub fn settle(alloc: Global, schema: &Schema) -> Result<Schema, AllocError>
    requires { MaySettle (schema_of schema.now) }
    ensures renumbered { IfOk result (λ anew.
        IsRenumbered (schema_of schema.now) (schema_of anew)) }
    ensures settled { IfOk result (λ anew. IsSettled (schema_of anew)) }
    ensures few { OnOk result (HasNewNumbers (schema_of schema.now)) }
{
    renumbered_are_settled();
    match renumber(alloc, schema) {
        Ok(anew) => Ok(anew),
        Err(err) => Err(wanting(err)),
    }
}
