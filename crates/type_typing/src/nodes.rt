//! Typed expressions, of their typed parts.

ghost use Rattle.std.specs.Prelude.{◌≡◌, IfOk, Ok};
ghost use Rattle.type_schema.specs.declared.types.TBase.TheVariants as base;
ghost use Rattle.type_schema.specs.declared.types.TTy.TheVariants.{Plain, Opt};
ghost use Rattle.type_schema.specs.declared.trees.TExpr.TheVariants as t;
ghost use Rattle.type_typing.specs.Asked as spec;
ghost use Rattle.type_typing.specs.Compared as signs;
ghost use Rattle.type_typing.specs.Names as names;
ghost use Rattle.type_typing.specs.Names.{plain_of};
ghost use Rattle.type_typing.specs.Outcome.{Gives, and_then, or_else};
ghost use Rattle.type_typing.specs.declared.type_err.TypeErr.TheVariants.{Unknown};

use crate::asked::{Typed, base_of, field_of_record, same_type};
use crate::compared::compared;
use crate::type_err::TypeErr;
use crate::vars::{Var, var_named};
use sqlite_items::Boxed;
use std::alloc::{AllocError, Global};
use text_ast::{Name, Txt};
use text_tree::{CmpOp, Named};
use type_schema::{ModelNo, Schema, TBase, TExpr, TSet, TTy};

/// An expression of this type, where its place asks for nothing else.
#[tactic(auto, unfolding(crate::specs::Asked::fits))]
pub fn fit(
    alloc: Global,
    asked: Option<TTy>,
    at: u32,
    ty: TTy,
    tree: TExpr,
) -> Result<Typed, TypeErr>
    ensures { Gives (spec.fits (spec.of_type at ty tree) asked) result }
{
    if let Some(asked) = asked
        && !same_type(ty, asked)
    {
        return Err(TypeErr::WrongType { at });
    }
    made(alloc, at, ty, tree)
}

/// An expression of this type.
fn made(alloc: Global, at: u32, ty: TTy, tree: TExpr) -> Result<Typed, TypeErr>
    ensures { Gives (Ok (spec.of_type at ty tree)) result }
{
    let tree = Boxed::new(alloc, tree)?;
    Ok(Typed { at, ty, tree })
}

/// A literal text.
pub fn text_of(alloc: Global, asked: Option<TTy>, at: u32, text: &Txt) -> Result<Typed, TypeErr>
    ensures { Gives
        (spec.fits (spec.of_type at (Plain base.Text) (t.Str text.now)) asked) result }
{
    let text = text.copy(alloc)?;
    fit(alloc, asked, at, TTy::Plain(TBase::Text), TExpr::Str(text))
}

/// A variable.
pub fn variable(
    alloc: Global,
    vars: &[Var],
    asked: Option<TTy>,
    at: u32,
    x: &Named,
) -> Result<Typed, TypeErr>
    ensures { Gives
        (and_then (or_else (names.var_named vars.now x.now.name) (Unknown x.now.at)) (λ var.
        spec.fits (spec.of_type at var.1 (t.Var var.0 x.now.name)) asked)) result }
{
    let (depth, ty) = var_named(vars, x)?;
    let name = x.name.copy(alloc)?;
    fit(alloc, asked, at, ty, TExpr::Var(depth, name))
}

/// `none`, where an option is asked.
#[tactic(auto, unfolding(crate::specs::Asked::none_of))]
pub fn none_of(alloc: Global, asked: Option<TTy>, at: u32) -> Result<Typed, TypeErr>
    ensures { Gives (spec.none_of asked at) result }
{
    match asked {
        Some(TTy::Opt(base)) => made(alloc, at, TTy::Opt(base), TExpr::NoneLit),
        None | Some(TTy::Plain(_) | TTy::Set(_)) => Err(TypeErr::WrongType { at }),
    }
}

/// `some(e)`.
pub fn just(alloc: Global, asked: Option<TTy>, at: u32, inner: Typed) -> Result<Typed, TypeErr>
    ensures { Gives
        (and_then (spec.base_of inner.ty inner.at) (λ b.
        spec.fits (spec.of_type at (Opt b) (t.SomeLit inner.tree)) asked)) result }
{
    let base = base_of(inner.ty, inner.at)?;
    fit(
        alloc,
        asked,
        at,
        TTy::Opt(base),
        TExpr::SomeLit(inner.into_tree()),
    )
}

/// `e.f`.
pub fn field_of(
    alloc: Global,
    schema: &Schema,
    asked: Option<TTy>,
    at: u32,
    of: Typed,
    field: &Named,
) -> Result<Typed, TypeErr>
    ensures { Gives
        (and_then (spec.field_of_record (plain_of schema.now) of.ty of.at field.now) (λ f.
        spec.fits (spec.of_type at f.2 (t.Get of.tree f.0 f.1)) asked)) result }
{
    let (model, number, ty) = field_of_record(schema, of.ty, of.at, field)?;
    fit(
        alloc,
        asked,
        at,
        ty,
        TExpr::Get(of.into_tree(), model, number),
    )
}

// Six beside the allocator: what is asked, and the parts of the comparison as its tree has them.
/// A comparison of two values of the base type.
pub fn comparison(
    alloc: Global,
    asked: Option<TTy>,
    at: u32,
    op: CmpOp,
    base: TBase,
    left: Typed,
    right: Typed,
) -> Result<Typed, TypeErr>
    ensures { Gives
        (spec.fits (spec.truth at (signs.compared op base left.tree right.tree)) asked) result }
{
    let tree = compared(alloc, op, base, left.into_tree(), right.into_tree())?;
    fit(alloc, asked, at, TTy::Plain(TBase::Bool), tree)
}

/// `e in S`, where the record is of the model.
pub fn within(
    alloc: Global,
    asked: Option<TTy>,
    at: u32,
    of: Typed,
    model: ModelNo,
    set: Boxed<TSet>,
) -> Result<Typed, TypeErr>
    ensures { Gives (spec.fits (spec.truth at (t.Member of.tree model set)) asked) result }
{
    let tree = TExpr::Member(of.into_tree(), model, set);
    fit(alloc, asked, at, TTy::Plain(TBase::Bool), tree)
}

/// `!e`.
pub fn negation(alloc: Global, asked: Option<TTy>, at: u32, inner: Typed) -> Result<Typed, TypeErr>
    ensures { Gives (spec.fits (spec.truth at (t.Not inner.tree)) asked) result }
{
    let tree = TExpr::Not(inner.into_tree());
    fit(alloc, asked, at, TTy::Plain(TBase::Bool), tree)
}

/// `a && b`.
pub fn both(
    alloc: Global,
    asked: Option<TTy>,
    at: u32,
    left: Typed,
    right: Typed,
) -> Result<Typed, TypeErr>
    ensures { Gives (spec.fits (spec.truth at (t.And left.tree right.tree)) asked) result }
{
    let tree = TExpr::And(left.into_tree(), right.into_tree());
    fit(alloc, asked, at, TTy::Plain(TBase::Bool), tree)
}

/// `a || b`.
pub fn either(
    alloc: Global,
    asked: Option<TTy>,
    at: u32,
    left: Typed,
    right: Typed,
) -> Result<Typed, TypeErr>
    ensures { Gives (spec.fits (spec.truth at (t.Or left.tree right.tree)) asked) result }
{
    let tree = TExpr::Or(left.into_tree(), right.into_tree());
    fit(alloc, asked, at, TTy::Plain(TBase::Bool), tree)
}

/// `if c then a else b`.
pub fn choice(
    alloc: Global,
    at: u32,
    test: Typed,
    one: Typed,
    other: Typed,
) -> Result<Typed, TypeErr>
    ensures { Gives
        (Ok (spec.of_type at one.ty (t.IfE test.tree one.tree other.tree))) result }
{
    let ty = one.ty;
    let tree = TExpr::IfE(test.into_tree(), one.into_tree(), other.into_tree());
    made(alloc, at, ty, tree)
}

/// The name in a box.
pub fn boxed_name(alloc: Global, x: &Named) -> Result<Boxed<Name>, AllocError>
    ensures { IfOk result (λ name. name ≡ x.now.name) }
{
    let name = x.name.copy(alloc)?;
    Boxed::new(alloc, name)
}

/// `match e with none -> a | some x -> b`.
pub fn cases(
    alloc: Global,
    at: u32,
    of: Typed,
    none: Typed,
    x: &Named,
    some: Typed,
) -> Result<Typed, TypeErr>
    ensures { Gives
        (Ok (spec.of_type at none.ty (t.MatchE of.tree none.tree x.now.name some.tree))) result }
{
    let ty = none.ty;
    let name = boxed_name(alloc, x)?;
    let tree = TExpr::MatchE(of.into_tree(), none.into_tree(), name, some.into_tree());
    made(alloc, at, ty, tree)
}
