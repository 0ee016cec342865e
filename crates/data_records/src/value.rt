//! Values.

ghost use Rattle.std.specs.Prelude.{◌≡◌, IfOk};
ghost use Rattle.data_records.specs.Views.{value_data};

use sqlite_items::{Boxed, Items};
use std::alloc::{AllocError, Global};
use text_ast::Txt;

/// What a field of a record holds, and what an expression has: of an option, nothing or a value.
#[derive(Drop)]
pub enum Value {
    Flag(bool),
    Num(i64),
    Str(Txt),
    /// The id of a record of the model that the type names.
    Id(u64),
    /// Ids of records of the model that the type names, rising.
    Ids(Items<u64>),
    Nothing,
    Just(Boxed<Value>),
}

impl Value {
    /// An equal value, in memory of its own.
    pub fn copy(&self, alloc: Global) -> Result<Value, AllocError>
        ensures { IfOk result (λ copy. value_data copy ≡ value_data self.now) }
    {
        match self {
            Value::Flag(b) => Ok(Value::Flag(*b)),
            Value::Num(n) => Ok(Value::Num(*n)),
            Value::Str(text) => Ok(Value::Str(text.copy(alloc)?)),
            Value::Id(id) => Ok(Value::Id(*id)),
            Value::Ids(ids) => Ok(Value::Ids(Items::from_slice(alloc, ids.as_slice())?)),
            Value::Nothing => Ok(Value::Nothing),
            Value::Just(inner) => {
                let inner = inner.get().copy(alloc)?;
                Ok(Value::Just(Boxed::new(alloc, inner)?))
            }
        }
    }
}
