//! Policies and initialisers.

ghost use Rattle.type_typing.specs.Names.{plain_of};
ghost use Rattle.type_typing.specs.Outcome.{Gives};
ghost use Rattle.type_typing.specs.Policies as spec;

use crate::asked::Content;
use crate::exprs::{typed_expr, typed_set};
use crate::type_err::TypeErr;
use crate::vars::{Var, record_var};
use std::alloc::Global;
use text_tree::{Init, Named, Policy};
use type_schema::{ModelNo, Schema, TInit, TPolicy, TTy};

/// A policy on records of the model.
pub fn typed_policy(
    alloc: Global,
    schema: &Schema,
    model: ModelNo,
    policy: &Policy,
) -> Result<TPolicy, TypeErr>
    ensures { Gives (spec.typed_policy (plain_of schema.now) model policy.now) result }
{
    match policy {
        Policy::Everyone(_) => Ok(TPolicy::Everyone),
        Policy::Nobody(_) => Ok(TPolicy::Nobody),
        Policy::Fun(x, set) => {
            let vars = record_var(alloc, model, x)?;
            let content = Content::Principals;
            let set = typed_set(alloc, schema, vars.as_slice(), content, set)?;
            let name = x.name.copy(alloc)?;
            Ok(TPolicy::Fun(name, set.into_inner()))
        }
    }
}

/// An initialiser of a field of the type, which is no set.
fn plain_init(
    alloc: Global,
    schema: &Schema,
    vars: &[Var],
    ty: TTy,
    init: &Init,
) -> Result<TInit, TypeErr>
    ensures { Gives (spec.plain_init (plain_of schema.now) vars.now ty init.now) result }
{
    match init {
        Init::Plain(e) => {
            let typed = typed_expr(alloc, schema, vars, Some(ty), e)?;
            Ok(TInit::Plain(typed.into_tree().into_inner()))
        }
        Init::OfSet(set) => Err(TypeErr::WrongType { at: set.at() }),
    }
}

/// An initialiser of a field that is a set of records of the model.
fn set_init(
    alloc: Global,
    schema: &Schema,
    vars: &[Var],
    of: ModelNo,
    init: &Init,
) -> Result<TInit, TypeErr>
    ensures { Gives (spec.set_init (plain_of schema.now) vars.now of init.now) result }
{
    match init {
        Init::Plain(e) => Err(TypeErr::WrongType { at: e.at() }),
        Init::OfSet(set) => {
            let set = typed_set(alloc, schema, vars, Content::Records(of), set)?;
            Ok(TInit::OfSet(of, set.into_inner()))
        }
    }
}

/// What a field of the type holds at first on records of the model, which the variable stands for.
pub fn typed_init(
    alloc: Global,
    schema: &Schema,
    model: ModelNo,
    ty: TTy,
    x: &Named,
    init: &Init,
) -> Result<TInit, TypeErr>
    ensures { Gives (spec.typed_init (plain_of schema.now) model ty x.now init.now) result }
{
    let vars = record_var(alloc, model, x)?;
    match ty {
        TTy::Set(of) => set_init(alloc, schema, vars.as_slice(), of, init),
        TTy::Plain(_) | TTy::Opt(_) => plain_init(alloc, schema, vars.as_slice(), ty, init),
    }
}
