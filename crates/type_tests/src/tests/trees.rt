//! Trees that no text spells, and that typing refuses all the same.

use crate::tests::texts::schema_of;
use crate::tests::{APP, named};
use sqlite_items::{Boxed, Items};
use std::alloc::Global;
use std::test::Fail;
use text_tree::{Expr, Init, Policy, SetExpr};
use type_schema::{Schema, TBase, TTy};
use type_typing::{TypeErr, typed_init, typed_policy};

/// The place of what is refused.
const AT: u32 = 5;

fn nobody(alloc: Global) -> Result<Boxed<SetExpr>, Fail> {
    Ok(Boxed::new(alloc, SetExpr::Nobody(6))?)
}

fn flag(alloc: Global) -> Result<Boxed<Expr>, Fail> {
    Ok(Boxed::new(alloc, Expr::Flag(6, true))?)
}

/// `none.flat_map(x -> none)`
fn flat_mapped(alloc: Global) -> Result<SetExpr, Fail> {
    let x = Boxed::new(alloc, named(alloc, b"x", 6)?)?;
    Ok(SetExpr::FlatS(AT, nobody(alloc)?, x, nobody(alloc)?))
}

/// `match true with none -> none | some x -> none`
fn matched(alloc: Global) -> Result<SetExpr, Fail> {
    let x = Boxed::new(alloc, named(alloc, b"x", 6)?)?;
    let none = nobody(alloc)?;
    Ok(SetExpr::MatchS(AT, flag(alloc)?, none, x, nobody(alloc)?))
}

/// A set of each form that is no chain.
fn sets(alloc: Global) -> Result<Vec<SetExpr>, Fail> {
    let mut sets = Vec::new(alloc);
    sets.push(SetExpr::Everyone(AT, AT))?;
    sets.push(SetExpr::Nobody(AT))?;
    sets.push(SetExpr::List(AT, Items::new(alloc)))?;
    sets.push(SetExpr::Sum(AT, nobody(alloc)?, nobody(alloc)?))?;
    sets.push(SetExpr::Less(AT, nobody(alloc)?, nobody(alloc)?))?;
    sets.push(flat_mapped(alloc)?)?;
    sets.push(SetExpr::IfS(AT, flag(alloc)?, nobody(alloc)?, nobody(alloc)?))?;
    sets.push(matched(alloc)?)?;
    Ok(sets)
}

/// `set.map(x -> u)`
fn mapped(alloc: Global, set: Boxed<SetExpr>) -> Result<SetExpr, Fail> {
    let x = Boxed::new(alloc, named(alloc, b"x", 7)?)?;
    let u = named(alloc, b"u", 8)?;
    let each = Boxed::new(alloc, Expr::Var(8, u))?;
    Ok(SetExpr::MapS(AT, set, x, each))
}

/// `u -> set.map(x -> u)`
fn policy(alloc: Global, set: Boxed<SetExpr>) -> Result<Policy, Fail> {
    let u = named(alloc, b"u", 0)?;
    Ok(Policy::Fun(u, mapped(alloc, set)?))
}

/// Why `u -> set.map(x -> u)` is no policy of users.
fn fault(alloc: Global, schema: &Schema, set: SetExpr) -> Result<Option<TypeErr>, Fail> {
    let policy = policy(alloc, Boxed::new(alloc, set)?)?;
    Ok(typed_policy(alloc, schema, 0, &policy).err())
}

#[test]
fn what_is_no_chain_is_not_mapped(rt: HostRuntime) -> Result<(), Fail> {
    let schema = schema_of(rt.alloc(), APP)?;
    let mut number: usize = 0;
    for set in sets(rt.alloc())? {
        let fault = fault(rt.alloc(), &schema, set)?;
        assert_eq!(rt;
            fault,
            Some(TypeErr::WrongType { at: AT }),
            "of form {number}"
        );
        number = number.saturating_add(1);
    }
    assert_eq!(rt; number, 8);
    Ok(())
}

/// A set is no initialiser of a number, and an expression none of a set.
#[test]
fn an_initialiser_is_of_the_form(rt: HostRuntime) -> Result<(), Fail> {
    let alloc = rt.alloc();
    let schema = schema_of(alloc, APP)?;
    let u = named(alloc, b"u", 0)?;
    let set = Init::OfSet(SetExpr::Nobody(AT));
    let number = Init::Plain(Expr::Num(AT, 1));
    for (ty, init) in [(TTy::Plain(TBase::Int), &set), (TTy::Set(0), &number)] {
        let fault = typed_init(alloc, &schema, 0, ty, &u, init).err();
        assert_eq!(rt; fault, Some(TypeErr::WrongType { at: AT }));
    }
    Ok(())
}
