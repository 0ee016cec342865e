//! The values of initialisers.

ghost use Rattle.std.specs.Prelude.{◌≡◌, IfOk};
ghost use Rattle.data_meaning.specs.Run.{init_value};
ghost use Rattle.data_records.specs.Views.{value_data};
ghost use Rattle.online_counted.specs.Counted.{risen};
ghost use Rattle.type_schema.specs.Views.{init_of};

use crate::evaluations::Evaluations;
use data_members::init_value;
use data_records::{Database, Value};
use std::alloc::{AllocError, Global};
use type_schema::TInit;

/// The value that the initialiser gives at the record with this id. It is counted, also where memory
/// is wanting.
pub fn value_counted(
    alloc: Global,
    database: &Database,
    init: &TInit,
    id: u64,
    evaluations: &mut Evaluations,
) -> Result<Value, AllocError>
    ensures value { IfOk result (λ v. value_data v
        ≡ init_value database.now (init_of init.now) id) }
    ensures counted { evaluations.new ≡ risen evaluations.old }
{
    evaluations.rise();
    init_value(alloc, database, init, id)
}
