//! The solver over equality of terms and differences of numbers at once.
//!
//! - `random`: numbers and clauses that look random.
//! - `mixed`: solvers over both theories, and what they answer.
//! - `rows`: small cases, each named by what it shows.
//! - `worlds`: the values that variables, terms and numbers can have, and a search of all.

mod mixed;
mod random;
mod rows;
mod worlds;

use self::mixed::{Difference, Found, clauses_of, last_answer, mixed_solver};
use self::random::Random;
use self::worlds::{World, is_met_by_some};
use solve_solver::PLit;
use std::alloc::Global;
use std::process::Abort;
use std::test::Fail;

/// What the solver answers for clauses over some plain variables, then the equalities of terms 0
/// and 1, 1 and 2, 0 and 2, and then the differences.
fn decide(
    rt: &impl Abort,
    alloc: Global,
    plain: u32,
    differences: &[Difference],
    clauses: &[&[i32]],
) -> Result<Option<Found>, Fail> {
    assert!(rt; plain < 100 && differences.len() < 100);
    let vars = plain + 3 + differences.len() as u32;
    let clauses = clauses_of(rt, alloc, vars, clauses)?;
    let solver = mixed_solver(rt, alloc, plain, differences, clauses.as_slice())?;
    Ok(last_answer(alloc, vars, solver)?)
}

/// Differences that no three numbers meet together, since 0 <= x <= y <= x - 1 would follow.
fn negative_cycle() -> [Difference; 3] {
    [
        Difference { x: 0, y: 1, c: 0 },
        Difference { x: 1, y: 2, c: 0 },
        Difference { x: 2, y: 0, c: -1 },
    ]
}

#[test]
fn a_chain_of_equalities_refutes_a_difference(rt: HostRuntime) -> Result<(), Fail> {
    let chain: [&[i32]; 3] = [&[1], &[2], &[-3]];
    let found = decide(&rt, rt.alloc(), 0, &[], chain.as_slice())?;
    assert!(rt; found.is_none());
    Ok(())
}

#[test]
fn a_negative_cycle_is_refuted(rt: HostRuntime) -> Result<(), Fail> {
    let cycle: [&[i32]; 3] = [&[4], &[5], &[6]];
    let found = decide(
        &rt,
        rt.alloc(),
        0,
        negative_cycle().as_slice(),
        cycle.as_slice(),
    )?;
    assert!(rt; found.is_none());
    Ok(())
}

#[test]
fn a_choice_between_a_chain_and_a_cycle_is_refuted(rt: HostRuntime) -> Result<(), Fail> {
    let chain_or_cycle: [&[i32]; 6] = [&[-1, 2], &[-1, 3], &[-1, -4], &[1, 5], &[1, 6], &[1, 7]];
    let found = decide(
        &rt,
        rt.alloc(),
        1,
        negative_cycle().as_slice(),
        chain_or_cycle.as_slice(),
    )?;
    assert!(rt; found.is_none());
    Ok(())
}

/// Forty-eight plain variables that do not matter, and then the chain or the cycle: of a literal of
/// the one and a literal of the other, at least one is to hold. A search that goes back over its
/// decisions one by one would meet the conflict once for each way to set the plain variables.
#[test]
fn a_conflict_is_not_of_the_first_decisions(rt: HostRuntime) -> Result<(), Fail> {
    let clauses: [&[i32]; 33] = [
        &[1, 2],
        &[3, 4],
        &[5, 6],
        &[7, 8],
        &[9, 10],
        &[11, 12],
        &[13, 14],
        &[15, 16],
        &[17, 18],
        &[19, 20],
        &[21, 22],
        &[23, 24],
        &[25, 26],
        &[27, 28],
        &[29, 30],
        &[31, 32],
        &[33, 34],
        &[35, 36],
        &[37, 38],
        &[39, 40],
        &[41, 42],
        &[43, 44],
        &[45, 46],
        &[47, 48],
        &[49, 52],
        &[49, 53],
        &[49, 54],
        &[50, 52],
        &[50, 53],
        &[50, 54],
        &[-51, 52],
        &[-51, 53],
        &[-51, 54],
    ];
    let found = decide(
        &rt,
        rt.alloc(),
        48,
        negative_cycle().as_slice(),
        clauses.as_slice(),
    )?;
    assert!(rt; found.is_none());
    Ok(())
}

/// Checks that the values meet each clause, and that the model gives each atom its value.
fn check(rt: &impl Abort, found: &Found, differences: &[Difference], clauses: &[Vec<PLit>]) {
    let (values, (classes, numbers)) = found;
    assert!(rt; values.len() >= 3);
    assert_eq!(rt; classes.as_slice().len(), 3);
    assert_eq!(rt; numbers.as_slice().len(), 3);
    let classes = classes.as_slice();
    let numbers = numbers.as_slice();
    assert_eq!(rt; numbers[0], 0);
    let world = World {
        plain: [values[0], values[1], values[2]],
        classes: [classes[0], classes[1], classes[2]],
        numbers: [numbers[0], numbers[1], numbers[2]],
    };
    for (var, value) in values.iter().enumerate() {
        assert_eq!(rt; world.value(differences, var), *value, "of variable {var}");
    }
    assert!(rt; world.meets_each(differences, clauses));
}

#[test]
fn answers_are_those_of_a_search_of_all_worlds(rt: HostRuntime) -> Result<(), Fail> {
    let mut random = Random(11);
    let mut met = 0u32;
    for round in 0..200u32 {
        let differences = [
            random.difference(),
            random.difference(),
            random.difference(),
            random.difference(),
        ];
        let clauses = random.clauses(rt.alloc(), 10, 5 + round % 12)?;
        let solver = mixed_solver(
            &rt,
            rt.alloc(),
            3,
            differences.as_slice(),
            clauses.as_slice(),
        )?;
        let found = last_answer(rt.alloc(), 10, solver)?;
        let want = is_met_by_some(differences.as_slice(), clauses.as_slice());
        assert_eq!(rt; found.is_some(), want, "in round {round}");
        if let Some(found) = &found {
            check(&rt, found, differences.as_slice(), clauses.as_slice());
            met = met.saturating_add(1);
        }
    }
    assert!(rt; 50 < met && met < 150, "{met} are met");
    Ok(())
}
