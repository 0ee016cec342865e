//! Literals whose answers are known from outside.
ghost use Rattle.std.specs.Prelude.{◌≡◌, ◌<◌, ◌≤◌, length, IsTrue, IfOk, IfSome};
ghost use Rattle.solve_theory.specs.Models.{HasModel};
ghost use Rattle.solve_order.specs.Difference.{is_assignment, meets, is_literal};

use crate::{Diff, Order};
use solve_theory::{LitBuf, Theory};
use std::alloc::{AllocError, Global};
use std::process::Abort;
use std::test::Fail;

const VARIABLES: usize = 4;

const CAPACITY: usize = 6;

const LEAST: i128 = -9_223_372_036_854_775_808;

const GREATEST: i128 = 9_223_372_036_854_775_807;

/// A theory of four variables with room for six literals, and none asserted.
fn start(alloc: Global) -> Result<Order, AllocError>
    ensures has_model { IfOk result (λ o. HasModel (is_assignment o.variables) meets o.literals) }
    ensures takes { IfOk result (λ o. is_literal o.variables ≡ is_literal VARIABLES) }
    ensures capacity { IfOk result (λ o. o.capacity ≡ CAPACITY) }
    ensures empty { IfOk result (λ o. length o.literals ≡ 0) }
{
    Order::new(alloc, VARIABLES, CAPACITY)
}

/// `x - y <= c`, if the theory takes it.
fn literal(x: u32, y: u32, c: i128) -> Option<Diff>
    ensures { IfSome result (λ l. IsTrue (is_literal VARIABLES l)) }
{
    let bound = 1i128 << 65;
    if x < 4 && y < 4 && -bound <= c && c <= bound {
        Some(Diff { x, y, c })
    } else {
        None
    }
}

/// Asserts a literal. Where there is no model any more, the literal is taken back after the
/// conflict.
fn ask<T: Theory>(theory: &mut T, core: &mut LitBuf<u32>, l: T::Lit) -> bool
    requires has_model { HasModel (T.models theory.old) T.meets (T.literals theory.old) }
    requires room { length (T.literals theory.old) < T.capacity theory.old }
    requires core_room { T.capacity theory.old ≤ core.old.capacity }
    requires taken { IsTrue (T.takes theory.old l) }
    ensures has_model { HasModel (T.models theory.new) T.meets (T.literals theory.new) }
    ensures capacity { T.capacity theory.new ≡ T.capacity theory.old }
    ensures takes { T.takes theory.new ≡ T.takes theory.old }
    ensures models { T.models theory.new ≡ T.models theory.old }
    ensures core_room { core.new.capacity ≡ core.old.capacity }
{
    if theory.assert(l) {
        return true;
    }
    theory.conflict(core);
    theory.undo(1);
    false
}

/// Asserts `x - y <= c`. Says whether the literals still have a model; if not, this one is taken
/// back.
fn ask_row(order: &mut Order, core: &mut LitBuf<u32>, x: u32, y: u32, c: i128) -> bool
    requires has_model { HasModel (is_assignment order.old.variables) meets order.old.literals }
    requires takes { is_literal order.old.variables ≡ is_literal VARIABLES }
    requires capacity { order.old.capacity ≡ CAPACITY }
    requires core_room { core.old.capacity ≡ CAPACITY }
    ensures has_model { HasModel (is_assignment order.new.variables) meets order.new.literals }
    ensures takes { is_literal order.new.variables ≡ is_literal VARIABLES }
    ensures capacity { order.new.capacity ≡ CAPACITY }
    ensures core_room { core.new.capacity ≡ CAPACITY }
{
    if order.asserted() >= CAPACITY {
        return true;
    }
    match literal(x, y, c) {
        None => true,
        Some(l) => ask(order, core, l),
    }
}

/// What a row of literals must answer.
struct Row {
    name: &'static str,
    /// `x - y <= c`, one after another.
    literals: &'static [(u32, u32, i128)],
    /// The positions of the conflict, if the last one is not met.
    conflict: Option<&'static [u32]>,
    /// The only model, if there is only one that the row looks at.
    model: Option<[i64; VARIABLES]>,
}

/// Literals whose answers are known, each row by itself.
const ROWS: [Row; 13] = [
    Row {
        name: "no number is above the range",
        literals: &[(0, 1, LEAST)],
        conflict: Some(&[0]),
        model: None,
    },
    Row {
        name: "no number is below the range",
        literals: &[(1, 0, LEAST - 1)],
        conflict: Some(&[0]),
        model: None,
    },
    Row {
        name: "the ends of the range are in it",
        literals: &[(0, 1, -GREATEST), (2, 0, LEAST), (3, 0, 0), (0, 3, 0)],
        conflict: None,
        model: Some([0, i64::MAX, i64::MIN, 0]),
    },
    Row {
        name: "above 3 and below 5 there is 4",
        literals: &[
            (0, 1, -4),
            (1, 0, 4),
            (2, 1, 0),
            (1, 2, 0),
            (3, 1, 0),
            (1, 3, 0),
        ],
        conflict: None,
        model: Some([0, 4, 4, 4]),
    },
    Row {
        name: "above 3 and below 4 there is none",
        literals: &[(0, 1, -4), (1, 0, 3)],
        conflict: Some(&[0, 1]),
        model: None,
    },
    Row {
        name: "the whole range lies between its ends",
        literals: &[(1, 2, LEAST - GREATEST), (3, 2, -GREATEST), (0, 3, 0)],
        conflict: None,
        model: Some([0, i64::MIN, i64::MAX, 0]),
    },
    Row {
        name: "nothing lies further apart than the ends of the range",
        literals: &[(3, 0, 7), (1, 2, LEAST - GREATEST - 1)],
        conflict: Some(&[1]),
        model: None,
    },
    Row {
        name: "a cycle of sum 0 is met",
        literals: &[
            (1, 2, 2),
            (2, 1, -2),
            (1, 0, 5),
            (0, 1, -5),
            (3, 2, 1),
            (2, 3, -1),
        ],
        conflict: None,
        model: Some([0, 5, 3, 4]),
    },
    Row {
        name: "a cycle of sum -1 is not, and only its literals are why",
        literals: &[(3, 0, 7), (1, 2, 2), (0, 3, -1), (2, 3, 4), (3, 1, -7)],
        conflict: Some(&[1, 3, 4]),
        model: None,
    },
    Row {
        name: "a variable differs from itself by nothing",
        literals: &[(2, 2, 0), (1, 1, -1)],
        conflict: Some(&[1]),
        model: None,
    },
    Row {
        name: "a cycle may go through the range",
        literals: &[(2, 0, LEAST + 3), (1, 3, 2), (1, 2, -4)],
        conflict: Some(&[0, 2]),
        model: None,
    },
    Row {
        name: "the greatest bound is met by all",
        literals: &[
            (1, 2, 36_893_488_147_419_103_232),
            (2, 1, 36_893_488_147_419_103_232),
        ],
        conflict: None,
        model: None,
    },
    Row {
        name: "the least bound is met by none",
        literals: &[
            (1, 2, 36_893_488_147_419_103_232),
            (2, 1, -36_893_488_147_419_103_232),
        ],
        conflict: Some(&[1]),
        model: None,
    },
];

/// Asserts literals one after another. Says whether the last one is met.
fn ask_each(order: &mut Order, core: &mut LitBuf<u32>, literals: &[(u32, u32, i128)]) -> bool
    requires has_model { HasModel (is_assignment order.old.variables) meets order.old.literals }
    requires takes { is_literal order.old.variables ≡ is_literal VARIABLES }
    requires capacity { order.old.capacity ≡ CAPACITY }
    requires core_room { core.old.capacity ≡ CAPACITY }
    ensures has_model { HasModel (is_assignment order.new.variables) meets order.new.literals }
{
    let mut met = true;
    for &(x, y, c) in literals {
        met = ask_row(order, core, x, y, c);
    }
    met
}

fn check_row(rt: &impl Abort, alloc: Global, row: &Row) -> Result<(), AllocError> {
    let name = row.name;
    let mut order = start(alloc)?;
    let mut core = LitBuf::new(alloc, CAPACITY)?;
    let met = ask_each(&mut order, &mut core, row.literals);
    assert_eq!(rt; met, row.conflict.is_none(), "{name}");
    let conflict = row.conflict.unwrap_or(&[]);
    assert_eq!(rt; core.items().len(), conflict.len(), "{name}");
    for position in conflict {
        assert!(rt; core.items().contains(position), "{name}");
    }
    if let Some(model) = row.model {
        let found = order.model()?;
        assert_eq!(rt; found.as_slice(), model.as_slice(), "{name}");
    }
    Ok(())
}

#[test]
fn rows(rt: HostRuntime) -> Result<(), Fail> {
    for row in &ROWS {
        check_row(&rt, rt.alloc(), row)?;
    }
    Ok(())
}
