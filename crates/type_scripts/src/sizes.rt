//! The sizes of policies and initialisers over a schema.

ghost use Rattle.std.specs.Prelude.{◌≡◌, IfOk};
ghost use Rattle.type_schema.specs.SchemaViews.{schema_of};
ghost use Rattle.type_schema.specs.Views.{init_of, policy_of};
ghost use Rattle.duty_meaning.specs.Sizes as counted;
ghost use Rattle.duty_numbering.specs.Numbers.{numbers_of};

use duty_builder::{Start, init_size, policy_size};
use duty_numbering::Numbering;
use std::alloc::{AllocError, Global};
use type_schema::{Schema, TInit, TPolicy, TTy};

/// A schema with its numbers, over which policies and initialisers are counted.
#[derive(Drop)]
pub(crate) struct Sizes<'a> {
    pub(crate) schema: &'a Schema,
    pub(crate) numbering: &'a Numbering,
    pub(crate) ghost numbered: { numbering.now ≡ numbers_of (schema_of schema.now) },
}

impl Sizes<'_> {
    /// The size of a policy.
    pub(crate) fn policy(&self, alloc: Global, policy: &TPolicy) -> Result<u32, AllocError>
        ensures { IfOk result (λ size.
            size ≡ counted.policy_size (schema_of self.now.schema.now) (policy_of policy.now)) }
    {
        let start = Start {
            schema: self.schema,
            numbering: self.numbering,
            added: self.schema.added.as_slice(),
        };
        let size = policy_size(alloc, &start, policy)?;
        // A size stays at a million.
        Ok(size as u32)
    }

    /// The size of an initialiser of a field of the type.
    pub(crate) fn init(&self, alloc: Global, ty: TTy, init: &TInit) -> Result<u32, AllocError>
        ensures { IfOk result (λ size.
            size ≡ counted.init_size (schema_of self.now.schema.now) ty (init_of init.now)) }
    {
        let start = Start {
            schema: self.schema,
            numbering: self.numbering,
            added: self.schema.added.as_slice(),
        };
        let size = init_size(alloc, &start, ty, init)?;
        // A size stays at a million.
        Ok(size as u32)
    }
}
