//! The types of fields.

ghost use Rattle.std.specs.Prelude.{◌≡◌};
ghost use Rattle.type_typing.specs.Names.{plain_of};
ghost use Rattle.type_typing.specs.Policies as spec;

use crate::names::model_named;
use crate::type_err::TypeErr;
use text_tree::{Base, Named, Ty};
use type_schema::{ModelNo, Schema, TBase, TTy};

/// A model that a type or a chain names.
pub fn typed_model(schema: &Schema, model: &Named) -> Result<ModelNo, TypeErr>
    ensures { result ≡ spec.typed_model (plain_of schema.now) model.now }
{
    match model_named(schema, model.name.bytes()) {
        Some(number) => Ok(number),
        None => Err(TypeErr::Unknown { at: model.at }),
    }
}

/// The base type that the text names.
#[tactic(auto, unfolding(crate::specs::Policies::typed_base))]
fn typed_base(schema: &Schema, base: &Base) -> Result<TBase, TypeErr>
    ensures { result ≡ spec.typed_base (plain_of schema.now) base.now }
{
    match base {
        Base::Bool(_) => Ok(TBase::Bool),
        Base::Int(_) => Ok(TBase::Int),
        Base::Text(_) => Ok(TBase::Text),
        Base::Id(model, _) => Ok(TBase::Id(typed_model(schema, model)?)),
    }
}

/// The type of a field, where each model that it names is there.
#[tactic(auto, unfolding(crate::specs::Policies::typed_type))]
pub fn typed_type(schema: &Schema, ty: &Ty) -> Result<TTy, TypeErr>
    ensures { result ≡ spec.typed_type (plain_of schema.now) ty.now }
{
    match ty {
        Ty::Plain(base) => Ok(TTy::Plain(typed_base(schema, base)?)),
        Ty::Set(model, _) => Ok(TTy::Set(typed_model(schema, model)?)),
        Ty::Opt(base, _) => Ok(TTy::Opt(typed_base(schema, base)?)),
    }
}
