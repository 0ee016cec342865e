//! Sizes of policies, and types of scripts.

ghost use Rattle.std.specs.Prelude.{◌≡◌, [], IfOk};
ghost use Rattle.type_schema.specs.SchemaViews.{schema_of};
ghost use Rattle.type_proper.specs.Steady.{IsSteady};

use crate::tests::named;
use sqlite_items::{Boxed, Items};
use std::alloc::Global;
use std::test::Fail;
use text_tree::{CmpOp, Command, Expr, ModelDef, Policy, Script, SetExpr, Spec};
use type_schema::Schema;
use type_scripts::{step_command, type_script, type_spec};
use type_typing::TypeErr;

/// A model with no fields.
fn model(alloc: Global, name: &[u8], create: Policy) -> Result<ModelDef, Fail> {
    Ok(ModelDef {
        principal: true,
        name: named(alloc, name, 6)?,
        create,
        delete: Policy::Nobody(35),
        fields: Items::new(alloc),
        at: 0,
    })
}

/// The schema of one model.
fn schema(alloc: Global) -> Result<Schema, Fail>
    ensures steady { IfOk result (λ s. IsSteady (schema_of s)) }
    ensures nothing_added { IfOk result (λ s. (schema_of s).added ≡ []) }
{
    let statics = Items::new(alloc);
    let mut models = Items::new(alloc);
    models.push(model(alloc, b"Note", Policy::Nobody(20))?)?;
    Ok(type_spec(alloc, &Spec { statics, models })?)
}

/// `test == true`
fn equal_to_true(alloc: Global, test: Expr) -> Result<Expr, Fail> {
    let left = Boxed::new(alloc, test)?;
    let right = Boxed::new(alloc, Expr::Flag(50, true))?;
    Ok(Expr::Cmp(42, CmpOp::Eq, left, right))
}

/// `true == true ..`, with so many signs.
fn signs(alloc: Global, count: u32) -> Result<Expr, Fail> {
    let mut test = Expr::Flag(42, true);
    for _ in 0..count {
        test = equal_to_true(alloc, test)?;
    }
    Ok(test)
}

/// `if test then public else none`
fn choice(alloc: Global, test: Expr) -> Result<SetExpr, Fail> {
    let everyone = Boxed::new(alloc, SetExpr::Everyone(90, 90))?;
    let nobody = Boxed::new(alloc, SetExpr::Nobody(99))?;
    let test = Boxed::new(alloc, test)?;
    Ok(SetExpr::IfS(39, test, everyone, nobody))
}

/// A policy with so many signs. A truth value has one node, and each sign and the choice make 5
/// more than twice as many.
fn doubled(alloc: Global, count: u32) -> Result<Policy, Fail> {
    let name = named(alloc, b"n", 34)?;
    let test = signs(alloc, count)?;
    let set = choice(alloc, test)?;
    Ok(Policy::Fun(name, set))
}

/// The command creates a model whose first policy has so many signs.
fn created(alloc: Global, before: &Schema, count: u32) -> Result<Result<u32, TypeErr>, Fail> {
    let policy = doubled(alloc, count)?;
    let command = Command::CreateModel(model(alloc, b"User", policy)?, 0);
    match step_command(alloc, before, &command) {
        Ok((after, _)) => Ok(Ok(after.next_model)),
        Err(fault) => Ok(Err(fault)),
    }
}

#[test]
fn policies_are_counted(rt: HostRuntime) -> Result<(), Fail> {
    let alloc = rt.alloc();
    let before = schema(alloc)?;
    // 12,283 nodes, and 24,571.
    assert_eq!(rt; created(alloc, &before, 10)?, Ok(2));
    let at = 39;
    let count = 24_571;
    let fault = TypeErr::Expanded { at, count };
    assert_eq!(rt; created(alloc, &before, 11)?, Err(fault));
    Ok(())
}

#[test]
fn a_script_is_typed(rt: HostRuntime) -> Result<(), Fail> {
    let alloc = rt.alloc();
    let first = schema(alloc)?;
    let mut commands = Items::new(alloc);
    commands.push(Command::CreateModel(model(alloc, b"User", Policy::Everyone(20))?, 0))?;
    commands.push(Command::AddStatic(named(alloc, b"Robot", 60)?, 50))?;
    let typed = type_script(alloc, &first, &Script { commands })?;
    assert_eq!(rt; typed.commands.len(), 2);
    assert_eq!(rt; typed.schemas.len(), 3);
    assert_eq!(rt; typed.start.models.len(), 2);
    assert_eq!(rt; typed.start.statics.len(), 0);
    assert_eq!(rt; typed.start.next_static, 1);
    Ok(())
}
