//! The variables that an expression may use.

ghost use Rattle.std.specs.Prelude.{◌≡◌, ◌≤◌, ◌^◌, IfOk, length, position};
ghost use Rattle.std.specs.List.{list_any};
ghost use Rattle.std.specs.Str.{bytes_eq};
ghost use Rattle.type_typing.specs.Names.{var_named};
ghost use Rattle.type_typing.specs.Outcome.{Gives, or_else};
ghost use Rattle.type_typing.specs.Asked.{under};
ghost use Rattle.type_typing.specs.Policies as spec;
ghost use Rattle.type_typing.specs.declared.type_err.TypeErr.TheVariants.{Unknown};

use crate::names::same_name;
use crate::type_err::TypeErr;
use sqlite_items::{Items, at};
use std::alloc::{AllocError, Global};
use text_ast::Name;
use text_tree::Named;
use type_schema::{ModelNo, TBase, TTy};

/// A variable: its name and its type. Its depth is how many stand before it.
#[derive(Drop)]
pub struct Var {
    pub name: Name,
    pub ty: TTy,
}

/// How many variables stand before the first of that name.
fn depth_of(vars: &[Var], name: &[u8]) -> Option<usize>
    ensures { result ≡ position (λ v. bytes_eq v.name name.now) vars.now }
{
    vars.iter().position(|v| same_name(v.name.bytes(), name))
}

/// The depth and the type of the variable of that name. A depth that passes 32 bits counts as
/// memory that is not there; with no more than 2^32 variables none does.
#[tactic(auto, unfolding(crate::specs::Names::var_named))]
pub fn var_named(vars: &[Var], x: &Named) -> Result<(u32, TTy), TypeErr>
    ensures gives { Gives (or_else (var_named vars.now x.now.name) (Unknown x.now.at)) result }
    ensures exact { length vars.now ≤ 2 ^ 32 →
        result ≡ or_else (var_named vars.now x.now.name) (Unknown x.now.at) }
{
    let Some(depth) = depth_of(vars, x.name.bytes()) else {
        return Err(TypeErr::Unknown { at: x.at });
    };
    let Some(v) = at(vars, depth) else {
        return Err(TypeErr::Unknown { at: x.at });
    };
    let Ok(depth) = u32::try_from(depth) else {
        return Err(TypeErr::OutOfMemory);
    };
    Ok((depth, v.ty))
}

/// The same variables.
fn copy_vars(alloc: Global, vars: &[Var]) -> Result<Items<Var>, AllocError>
    ensures { IfOk result (λ copies. copies ≡ vars.now) }
{
    let mut copies = Vec::new(alloc);
    for v in vars {
        let name = v.name.copy(alloc)?;
        copies.push(Var { name, ty: v.ty })?;
    }
    Ok(Items::from_vec(copies))
}

/// Whether a variable has that name.
fn is_var(vars: &[Var], name: &[u8]) -> bool
    ensures { result ≡ list_any (λ v. bytes_eq v.name name.now) vars.now }
{
    vars.iter().any(|v| same_name(v.name.bytes(), name))
}

/// The variables and one more. It hides none.
#[tactic(auto, unfolding(crate::specs::Asked::under))]
pub fn under(alloc: Global, vars: &[Var], x: &Named, ty: TTy) -> Result<Items<Var>, TypeErr>
    ensures { Gives (under vars.now x.now ty) result }
{
    if is_var(vars, x.name.bytes()) {
        return Err(TypeErr::Twice { at: x.at });
    }
    let mut inner = copy_vars(alloc, vars)?;
    let name = x.name.copy(alloc)?;
    inner.push(Var { name, ty })?;
    Ok(inner)
}

/// The variable of a policy or an initialiser, which is a record of the model.
pub fn record_var(alloc: Global, model: ModelNo, x: &Named) -> Result<Items<Var>, AllocError>
    ensures { IfOk result (λ vars. vars ≡ spec.record_var model x.now) }
{
    let mut vars = Items::new(alloc);
    let name = x.name.copy(alloc)?;
    let ty = TTy::Plain(TBase::Id(model));
    vars.push(Var { name, ty })?;
    Ok(vars)
}
