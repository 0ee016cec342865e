//! Specifications: static principals and models with their fields.

ghost use Rattle.std.specs.Prelude.{IfOk, ◌≡◌};

use crate::named::Named;
use crate::policies::Policy;
use sqlite_items::Items;
use std::alloc::{AllocError, Global};

/// A base type, and the offset of its first token.
#[derive(Debug, Drop)]
pub enum Base {
    Bool(u32),
    /// A signed number of 64 bits.
    Int(u32),
    /// UTF-8 of at most 4,096 bytes.
    Text(u32),
    /// `Id(M)`: a record of the model.
    Id(Named, u32),
}

impl Base {
    /// An equal base type, offsets included.
    pub fn copy(&self, alloc: Global) -> Result<Base, AllocError>
        ensures { IfOk result (λ copy. copy ≡ self.now) }
    {
        Ok(match self {
            Base::Bool(at) => Base::Bool(*at),
            Base::Int(at) => Base::Int(*at),
            Base::Text(at) => Base::Text(*at),
            Base::Id(model, at) => Base::Id(model.copy(alloc)?, *at),
        })
    }
}

/// The type of a field.
#[derive(Debug, Drop)]
pub enum Ty {
    /// A base type alone. Its first token is that of the base type.
    Plain(Base),
    /// `Set(Id(M))`, and the offset of its first token.
    Set(Named, u32),
    /// `Option(T)`, and the offset of its first token.
    Opt(Base, u32),
}

impl Ty {
    /// An equal type, offsets included.
    pub fn copy(&self, alloc: Global) -> Result<Ty, AllocError>
        ensures { IfOk result (λ copy. copy ≡ self.now) }
    {
        Ok(match self {
            Ty::Plain(base) => Ty::Plain(base.copy(alloc)?),
            Ty::Set(model, at) => Ty::Set(model.copy(alloc)?, *at),
            Ty::Opt(base, at) => Ty::Opt(base.copy(alloc)?, *at),
        })
    }
}

/// A field of a model. Its first token is its name.
#[derive(Drop)]
pub struct FieldDef {
    pub name: Named,
    pub ty: Ty,
    pub read: Policy,
    pub write: Policy,
}

/// A model with its fields in the order of the text.
#[derive(Drop)]
pub struct ModelDef {
    /// Whether its records are principals.
    pub principal: bool,
    pub name: Named,
    pub create: Policy,
    pub delete: Policy,
    pub fields: Items<FieldDef>,
    /// The offset of the first token.
    pub at: u32,
}

/// A specification: the names of its static principals and its models, each in the order of the
/// text.
#[derive(Drop)]
pub struct Spec {
    pub statics: Items<Named>,
    pub models: Items<ModelDef>,
}
