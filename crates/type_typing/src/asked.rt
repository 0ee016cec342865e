//! What a place asks of an expression or a set, and what is done where it is something else.

ghost use Rattle.std.specs.Prelude.{◌≡◌};
ghost use Rattle.type_typing.specs.Asked as spec;
ghost use Rattle.type_typing.specs.Names.{plain_of};

use crate::names::{field_of_model, is_principal};
use crate::type_err::TypeErr;
use sqlite_items::Boxed;
use text_tree::Named;
use type_schema::{FieldNo, ModelNo, Schema, TBase, TExpr, TSet, TTy};

/// What a set is asked to hold.
#[derive(Clone, Copy, Debug, PartialEq, Eq)]
pub enum Content {
    /// Principals, as in a policy.
    Principals,
    /// Records of the model.
    Records(ModelNo),
}

/// An expression and its type.
#[derive(Drop)]
pub struct Typed {
    /// The offset of the first token.
    pub at: u32,
    pub ty: TTy,
    pub tree: Boxed<TExpr>,
}

impl Typed {
    /// The expression.
    pub fn into_tree(self) -> Boxed<TExpr>
        ensures { result ≡ self.tree }
    {
        let Typed { tree, .. } = self;
        tree
    }
}

/// A chain of records, and their model.
#[derive(Drop)]
pub struct Source {
    /// The offset of the first token, inside the parentheses.
    pub at: u32,
    pub model: ModelNo,
    pub set: Boxed<TSet>,
}

/// Whether two base types are the same.
fn same_base(a: TBase, b: TBase) -> bool
    ensures { result ≡ spec.same_base a b }
{
    match (a, b) {
        (TBase::Bool, TBase::Bool) | (TBase::Int, TBase::Int) | (TBase::Text, TBase::Text) => true,
        (TBase::Id(m), TBase::Id(n)) => m == n,
        _ => false,
    }
}

/// Whether two types are the same.
#[tactic(auto, unfolding(crate::specs::Asked::same_type))]
pub fn same_type(a: TTy, b: TTy) -> bool
    ensures { result ≡ spec.same_type a b }
{
    match (a, b) {
        (TTy::Plain(a), TTy::Plain(b)) | (TTy::Opt(a), TTy::Opt(b)) => same_base(a, b),
        (TTy::Set(m), TTy::Set(n)) => m == n,
        _ => false,
    }
}

/// What `some(e)` asks of `e`.
#[tactic(auto, unfolding(crate::specs::Asked::inner_asked))]
pub fn inner_asked(asked: Option<TTy>) -> Option<TTy>
    ensures { result ≡ spec.inner_asked asked }
{
    match asked {
        Some(TTy::Opt(base)) => Some(TTy::Plain(base)),
        None | Some(TTy::Plain(_) | TTy::Set(_)) => None,
    }
}

/// The model of an id.
#[tactic(auto, unfolding(crate::specs::Asked::id_of))]
pub fn id_of(ty: TTy, at: u32) -> Result<ModelNo, TypeErr>
    ensures { result ≡ spec.id_of ty at }
{
    match ty {
        TTy::Plain(TBase::Id(model)) => Ok(model),
        TTy::Plain(TBase::Bool | TBase::Int | TBase::Text) | TTy::Set(_) | TTy::Opt(_) => {
            Err(TypeErr::WrongType { at })
        }
    }
}

/// A type that is a base type.
#[tactic(auto, unfolding(crate::specs::Asked::base_of))]
pub fn base_of(ty: TTy, at: u32) -> Result<TBase, TypeErr>
    ensures { result ≡ spec.base_of ty at }
{
    match ty {
        TTy::Plain(base) => Ok(base),
        TTy::Set(_) | TTy::Opt(_) => Err(TypeErr::WrongType { at }),
    }
}

/// The type inside an option.
#[tactic(auto, unfolding(crate::specs::Asked::option_of))]
pub fn option_of(ty: TTy, at: u32) -> Result<TBase, TypeErr>
    ensures { result ≡ spec.option_of ty at }
{
    match ty {
        TTy::Opt(base) => Ok(base),
        TTy::Plain(_) | TTy::Set(_) => Err(TypeErr::WrongType { at }),
    }
}

/// The model of the ids of a set.
#[tactic(auto, unfolding(crate::specs::Asked::set_of_ids))]
pub fn set_of_ids(ty: TTy, at: u32) -> Result<ModelNo, TypeErr>
    ensures { result ≡ spec.set_of_ids ty at }
{
    match ty {
        TTy::Set(model) => Ok(model),
        TTy::Plain(_) | TTy::Opt(_) => Err(TypeErr::WrongType { at }),
    }
}

/// The field of a record of this type: its model, its number and its type.
#[tactic(auto, unfolding(crate::specs::Asked::field_of_record))]
pub fn field_of_record(
    schema: &Schema,
    of: TTy,
    at: u32,
    field: &Named,
) -> Result<(ModelNo, FieldNo, TTy), TypeErr>
    ensures { result ≡ spec.field_of_record (plain_of schema.now) of at field.now }
{
    let model = id_of(of, at)?;
    let (number, ty) = field_of_model(schema, model, field)?;
    Ok((model, number, ty))
}

/// Whether a set that is asked for this content may hold records of the model.
#[tactic(auto, unfolding(crate::specs::Asked::may_hold))]
pub fn may_hold(schema: &Schema, content: Content, model: ModelNo, at: u32) -> Result<(), TypeErr>
    ensures { result ≡ spec.may_hold (plain_of schema.now) content model at }
{
    match content {
        Content::Principals => {
            if is_principal(schema, model) {
                Ok(())
            } else {
                Err(TypeErr::NotPrincipal { at })
            }
        }
        Content::Records(asked) => {
            if asked == model {
                Ok(())
            } else {
                Err(TypeErr::WrongType { at })
            }
        }
    }
}

/// Nothing, where principals are asked.
#[tactic(auto, unfolding(crate::specs::Asked::among_principals))]
pub fn among_principals(content: Content, at: u32) -> Result<(), TypeErr>
    ensures { result ≡ spec.among_principals content at }
{
    match content {
        Content::Principals => Ok(()),
        Content::Records(_) => Err(TypeErr::WrongType { at }),
    }
}

/// What a set with this content asks of an item.
#[tactic(auto, unfolding(crate::specs::Asked::id_asked))]
pub fn id_asked(content: Content) -> Option<TTy>
    ensures { result ≡ spec.id_asked content }
{
    match content {
        Content::Principals => None,
        Content::Records(model) => Some(TTy::Plain(TBase::Id(model))),
    }
}
