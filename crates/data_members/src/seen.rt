//! The value of an expression: one that a database holds, or one of its own.

ghost use Rattle.std.specs.Prelude.{◌≡◌, IfOk};
ghost use Rattle.data_records.specs.Views.{value_data};
ghost use Rattle.data_members.specs.Variables.{seen_data};

use data_records::Value;
use std::alloc::{AllocError, Global};

/// A value that stands in a database, or a value of its own.
#[derive(Drop)]
pub(crate) enum Seen<'d> {
    Held(&'d Value),
    Made(Value),
}

impl Seen<'_> {
    /// The value, in memory of its own.
    pub(crate) fn into_value(self, alloc: Global) -> Result<Value, AllocError>
        ensures { IfOk result (λ v. value_data v ≡ seen_data self.entry) }
    {
        match self {
            Seen::Held(value) => value.copy(alloc),
            Seen::Made(value) => Ok(value),
        }
    }

    /// The value.
    pub(crate) fn get(&self) -> &Value
        ensures { value_data result.now ≡ seen_data self.now }
    {
        match self {
            Seen::Held(value) => value,
            Seen::Made(value) => value,
        }
    }
}
