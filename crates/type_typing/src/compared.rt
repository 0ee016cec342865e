//! Comparisons and filters.

ghost use Rattle.std.specs.Prelude.{◌≡◌, IfOk};
ghost use Rattle.type_typing.specs.Compared as spec;

use crate::type_err::TypeErr;
use sqlite_items::Boxed;
use std::alloc::{AllocError, Global};
use text_tree::{CmpOp, FilterOp};
use type_schema::{TBase, TExpr, TTy};

/// What a sign asks of the left side.
#[tactic(auto, unfolding(crate::specs::Compared::left_asked))]
pub fn left_asked(op: CmpOp) -> Option<TTy>
    ensures { result ≡ spec.left_asked op }
{
    match op {
        CmpOp::Eq | CmpOp::Ne => None,
        CmpOp::Lt | CmpOp::Le | CmpOp::Gt | CmpOp::Ge => Some(TTy::Plain(TBase::Int)),
    }
}

/// Whether two values of a base type are the same: of flags, whether both or neither holds.
#[tactic(auto, unfolding(crate::specs::Compared::alike))]
fn alike(op: CmpOp, base: TBase, left: Boxed<TExpr>, right: Boxed<TExpr>) -> TExpr
    ensures { result ≡ spec.alike op base left right }
{
    match base {
        TBase::Bool => TExpr::Iff(left, right, op),
        TBase::Int | TBase::Text | TBase::Id(_) => TExpr::Eq(left, right, op),
    }
}

/// What is true where the expression is false.
fn negated(alloc: Global, tree: TExpr) -> Result<TExpr, AllocError>
    ensures { IfOk result (λ negated. negated ≡ spec.negated tree) }
{
    let tree = Boxed::new(alloc, tree)?;
    Ok(TExpr::Not(tree))
}

/// A comparison of two values of a base type, by equality and the order.
#[tactic(auto, unfolding(crate::specs::Compared::compared))]
pub fn compared(
    alloc: Global,
    op: CmpOp,
    base: TBase,
    left: Boxed<TExpr>,
    right: Boxed<TExpr>,
) -> Result<TExpr, AllocError>
    ensures { IfOk result (λ tree. tree ≡ spec.compared op base left right) }
{
    match op {
        CmpOp::Eq => Ok(alike(op, base, left, right)),
        CmpOp::Ne => negated(alloc, alike(op, base, left, right)),
        CmpOp::Lt => Ok(TExpr::Less(left, right, op)),
        CmpOp::Le => negated(alloc, TExpr::Less(right, left, op)),
        CmpOp::Gt => Ok(TExpr::Less(right, left, op)),
        CmpOp::Ge => negated(alloc, TExpr::Less(left, right, op)),
    }
}

/// The type of what is compared by order at the offset. Only numbers are.
#[tactic(auto, unfolding(crate::specs::Compared::ordered))]
fn ordered(base: TBase, at: u32) -> Result<TTy, TypeErr>
    ensures { result ≡ spec.ordered base at }
{
    match base {
        TBase::Int => Ok(TTy::Plain(TBase::Int)),
        TBase::Bool | TBase::Text | TBase::Id(_) => Err(TypeErr::WrongType { at }),
    }
}

/// The type that both sides of a comparison have, asked of a base type at the offset.
#[tactic(auto, unfolding(crate::specs::Compared::signed))]
fn signed(op: CmpOp, base: TBase, at: u32) -> Result<TTy, TypeErr>
    ensures { result ≡ spec.signed op base at }
{
    match op {
        CmpOp::Eq | CmpOp::Ne => Ok(TTy::Plain(base)),
        CmpOp::Lt | CmpOp::Le | CmpOp::Gt | CmpOp::Ge => ordered(base, at),
    }
}

/// What a filter on a field of this type asks of its value. `at` is the field's place.
#[tactic(auto, unfolding(crate::specs::Compared::tested))]
pub fn tested(op: FilterOp, ty: TTy, at: u32) -> Result<TTy, TypeErr>
    ensures { result ≡ spec.tested op ty at }
{
    match op {
        FilterOp::Cmp(op) => match ty {
            TTy::Plain(base) => signed(op, base, at),
            TTy::Set(_) | TTy::Opt(_) => Err(TypeErr::WrongType { at }),
        },
        FilterOp::Has => match ty {
            TTy::Set(model) => Ok(TTy::Plain(TBase::Id(model))),
            TTy::Plain(_) | TTy::Opt(_) => Err(TypeErr::WrongType { at }),
        },
    }
}
