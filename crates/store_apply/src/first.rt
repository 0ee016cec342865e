//! What is stored at first.

ghost use Rattle.std.specs.Prelude.{◌≡◌, IfOk};
ghost use Rattle.type_schema.specs.SchemaViews.{schema_of};
ghost use Rattle.data_meaning.specs.Database.{IsDatabase, IsInOrder};
ghost use Rattle.data_records.specs.Inserted.{empty_of};
ghost use Rattle.store_keeper.specs.Stored.{IsSettled, IsStored, stored_of};
ghost use Rattle.store_apply.specs.Applied.{initial_of};

use data_records::{Database, databases_stay};
use sqlite_items::Items;
use std::alloc::{AllocError, Global};
use store_keeper::Stored;
use type_schema::Schema;

/// The version of what is stored at first.
const FIRST_VERSION: u64 = 1;

/// The database without records over a schema that may be stored.
pub fn empty(alloc: Global, schema: &Schema) -> Result<Database, AllocError>
    requires { IsSettled (schema_of schema.now) }
    ensures empty { IfOk result (λ d. d ≡ empty_of (schema_of schema.now)) }
    ensures database { IfOk result (IsDatabase (schema_of schema.now)) }
    ensures order { IfOk result (IsInOrder (schema_of schema.now)) }
{
    databases_stay();
    Database::empty(alloc, schema)
}

/// What is stored at first: version 1, and no notes. It takes no memory.
pub fn initial(alloc: Global, schema: Schema, base: Database) -> Stored
    requires settled { IsSettled (schema_of schema) }
    requires database { IsDatabase (schema_of schema) base }
    requires order { IsInOrder (schema_of schema) base }
    ensures initial { stored_of result ≡ initial_of (schema_of schema) base }
    ensures stored { IsStored (stored_of result) }
{
    Stored::new(schema, FIRST_VERSION, base, Items::new(alloc))
}
