//! What no clause says: which literals a conflict is made of.
ghost use Rattle.std.specs.Prelude.{◌+◌, ◌≤◌, length, IsTrue, All};
ghost use Rattle.solve_theory.specs.Models.{HasModel};

use solve_equality::{Equality, EqualityLit};
use solve_theory::{LitBuf, Pair, PairLit, Theory, probe};
use std::process::Abort;
use std::test::Fail;

#[test]
fn a_model_has_a_class_number_for_each_term(rt: HostRuntime) -> Result<(), Fail> {
    let mut equality = Equality::new(rt.alloc(), 4, &[0, 2], 4)?;
    assert!(rt; equality.assert(EqualityLit::Same(0, 1)));
    let model = equality.model()?;
    let classes = model.as_slice();
    assert_eq!(rt; classes.len(), 4);
    assert_eq!(rt; classes[0], classes[1]);
    assert_ne!(rt; classes[0], classes[2]);
    Ok(())
}

/// Any theory, asked through its bound about literals that have no model because of those at the
/// expected positions.
fn has_core<T: Theory>(
    rt: &impl Abort,
    theory: &mut T,
    literals: &[T::Lit],
    core: &mut LitBuf<u32>,
    expected: &[u32],
)
    requires has_model { HasModel (T.models theory.old) T.meets (T.literals theory.old) }
    requires taken { All (λ l. IsTrue (T.takes theory.old l)) literals.now }
    requires room { length (T.literals theory.old) + length literals.now ≤ T.capacity theory.old }
    requires core_room { length (T.literals theory.old) + length literals.now ≤ core.old.capacity }
{
    let before = theory.asserted();
    assert!(rt; !probe(theory, literals, core));
    assert_eq!(rt; theory.asserted(), before);
    assert_eq!(rt; core.items().len(), expected.len());
    assert!(rt;
        expected
            .iter()
            .all(|position| core.items().contains(position))
    );
}

#[test]
fn terms_that_are_fixed_do_not_join(rt: HostRuntime) -> Result<(), Fail> {
    let mut equality = Equality::new(rt.alloc(), 3, &[0, 2], 4)?;
    let mut core = LitBuf::new(rt.alloc(), 4)?;
    let literals = [EqualityLit::Same(0, 1), EqualityLit::Same(1, 2)];
    has_core(&rt, &mut equality, literals.as_slice(), &mut core, &[0, 1]);
    Ok(())
}

#[test]
fn a_conflict_is_the_chain_between_two_terms(rt: HostRuntime) -> Result<(), Fail> {
    let mut equality = Equality::new(rt.alloc(), 5, &[], 8)?;
    let mut core = LitBuf::new(rt.alloc(), 8)?;
    let literals = [
        EqualityLit::Same(0, 1),
        EqualityLit::Same(1, 2),
        EqualityLit::Same(2, 3),
        EqualityLit::Same(3, 4),
        EqualityLit::Differ(1, 3),
    ];
    has_core(
        &rt,
        &mut equality,
        literals.as_slice(),
        &mut core,
        &[1, 2, 4],
    );
    Ok(())
}

#[test]
fn a_cycle_with_a_difference_is_refuted_through_the_bound(rt: HostRuntime) -> Result<(), Fail> {
    let mut equality = Equality::new(rt.alloc(), 3, &[], 8)?;
    let mut core = LitBuf::new(rt.alloc(), 8)?;
    let cycle = [
        EqualityLit::Same(0, 1),
        EqualityLit::Differ(2, 0),
        EqualityLit::Same(2, 1),
    ];
    has_core(&rt, &mut equality, cycle.as_slice(), &mut core, &[0, 1, 2]);
    Ok(())
}

#[test]
fn a_pair_names_the_positions_of_its_right_side(rt: HostRuntime) -> Result<(), Fail> {
    let left = Equality::new(rt.alloc(), 2, &[], 8)?;
    let right = Equality::new(rt.alloc(), 2, &[], 8)?;
    let mut pair = Pair::new(rt.alloc(), left, right, 8)?;
    let mut core = LitBuf::new(rt.alloc(), 8)?;
    let literals = [
        PairLit::Right(EqualityLit::Same(0, 1)),
        PairLit::Left(EqualityLit::Differ(0, 1)),
        PairLit::Right(EqualityLit::Differ(1, 0)),
    ];
    has_core(&rt, &mut pair, literals.as_slice(), &mut core, &[0, 2]);
    Ok(())
}

#[test]
fn a_model_of_a_pair_is_one_of_each_side(rt: HostRuntime) -> Result<(), Fail> {
    let left = Equality::new(rt.alloc(), 2, &[0, 1], 8)?;
    let right = Equality::new(rt.alloc(), 3, &[], 8)?;
    let pair = Pair::new(rt.alloc(), left, right, 8)?;
    let (left_model, right_model) = pair.model()?;
    assert_eq!(rt; left_model.as_slice().len(), 2);
    assert_eq!(rt; right_model.as_slice().len(), 3);
    Ok(())
}
