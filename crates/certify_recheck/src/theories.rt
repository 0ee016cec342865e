//! Whether what a path says has a model.

ghost use Rattle.std.specs.Bool.{OnFalse};
ghost use Rattle.std.specs.Option.{option_to_list};
ghost use Rattle.std.specs.Prelude.{◌≡◌, ◌-◌, ◌<◌, ◌≤◌, ◌↔◌, [], ◌∷◌, ◌++◌, if◌then◌else◌, length, take, IfOk};
ghost use Rattle.std.specs.Prelude.{IfSome, IsTrue, MatchOption, None};
ghost use Rattle.solve_theory.specs.Models.{HasModel};
ghost use Rattle.certify_clauses.specs.Paths.{value_on};
ghost use Rattle.certify_clauses.specs.Problem.{all_said, are_columns, meets_said, said_by};
ghost use Rattle.certify_clauses.specs.Trees.{IsWithoutModel};
ghost use Rattle.certify_recheck.specs.Walking.{IsReady, TakesAll};

use certify_clauses::{Atom, Clauses, Literal, Path};
use solve_equality::Equality;
use solve_order::Order;
use solve_theory::{Pair, Theory};
use sqlite_items::Items;
use std::alloc::{AllocError, Global};

/// A procedure that was told what the first literals of a path say.
#[derive(Drop)]
pub struct Told<T> {
    pub theory: T,
    /// How many literals, from the outermost on. What they say has a model.
    pub count: usize,
}

/// The procedures for equality and for differences, with nothing told.
pub fn procedures<C: Clauses>(
    alloc: Global,
    c: &C,
) -> Result<Told<Pair<Equality, Order>>, AllocError>
    ensures { IfOk result (λ told. IsReady (C.problem c.now) [] told.count
        (⟦<Pair<Equality, Order> as Theory>⟧.literals told.theory)
        (⟦<Pair<Equality, Order> as Theory>⟧.capacity told.theory)
        (⟦<Pair<Equality, Order> as Theory>⟧.takes told.theory)
        (⟦<Pair<Equality, Order> as Theory>⟧.models told.theory)
        ⟦<Pair<Equality, Order> as Theory>⟧.meets) }
{
    let capacity = c.vars() as usize;
    let equality = Equality::new(alloc, c.terms(), c.fixed(), capacity)?;
    let order = Order::new(alloc, c.numbers(), capacity)?;
    let theory = Pair::new(alloc, equality, order, capacity)?;
    Ok(Told { theory, count: 0 })
}

/// Asserts what a literal says, if its variable is an atom; where there is then no model, takes it
/// back.
fn tell<C: Clauses, T: Theory<Lit = Atom>>(c: &C, literal: Literal, theory: &mut T) -> bool
    requires has_model { HasModel (T.models theory.old) T.meets (T.literals theory.old) }
    requires room { length (T.literals theory.old) < T.capacity theory.old }
    requires takes { TakesAll (C.problem c.now) (T.takes theory.old) }
    ensures list { T.literals theory.new ≡ (if result then T.literals theory.old
        ++ option_to_list (said_by (C.problem c.now) literal) else T.literals theory.old) }
    ensures verdict { IsTrue result ↔ HasModel (T.models theory.old) T.meets
        (T.literals theory.old ++ option_to_list (said_by (C.problem c.now) literal)) }
    ensures capacity { T.capacity theory.new ≡ T.capacity theory.old }
    ensures takes { T.takes theory.new ≡ T.takes theory.old }
    ensures models { T.models theory.new ≡ T.models theory.old }
{
    match c.said_by(literal) {
        None => true,
        Some(said) => {
            if theory.assert(said) {
                return true;
            }
            theory.undo(1);
            false
        }
    }
}

/// Takes back what a literal says, if its variable is an atom.
fn untell<C: Clauses, T: Theory<Lit = Atom>>(c: &C, literal: Literal, theory: &mut T)
    requires { length (option_to_list (said_by (C.problem c.now) literal))
        ≤ length (T.literals theory.old) }
    ensures list { T.literals theory.new ≡ take (length (T.literals theory.old)
        - length (option_to_list (said_by (C.problem c.now) literal))) (T.literals theory.old) }
    ensures capacity { T.capacity theory.new ≡ T.capacity theory.old }
    ensures takes { T.takes theory.new ≡ T.takes theory.old }
    ensures models { T.models theory.new ≡ T.models theory.old }
{
    match c.said_by(literal) {
        None => (),
        Some(_) => theory.undo(1),
    }
}

/// Whether what the literals of a path say has no model.
pub fn has_no_model<C: Clauses, T: Theory<Lit = Atom, Model = (Items<u32>, Items<i64>)>>(
    c: &C,
    path: &[Literal],
    told: &mut Told<T>,
) -> bool
    requires few { length path.now ≤ (C.problem c.now).vars }
    requires ready { IsReady (C.problem c.now) path.now told.old.count (T.literals told.old.theory)
        (T.capacity told.old.theory) (T.takes told.old.theory) (T.models told.old.theory) T.meets }
    ensures ready { IsReady (C.problem c.now) path.now told.new.count (T.literals told.new.theory)
        (T.capacity told.new.theory) (T.takes told.new.theory) (T.models told.new.theory) T.meets }
    ensures verdict { IsTrue result ↔ IsWithoutModel (C.problem c.now) path.now }
    ensures has_model { OnFalse result (HasModel (are_columns (C.problem c.now)) meets_said
        (all_said (C.problem c.now) path.now)) }
{
    while told.count < path.len() {
        if !tell(c, path[told.count], &mut told.theory) {
            return true;
        }
        told.count += 1;
    }
    false
}

/// Takes the last literal of a path back, and what it says where that was told.
pub fn take_back<C: Clauses, T: Theory<Lit = Atom, Model = (Items<u32>, Items<i64>)>>(
    c: &C,
    path: &mut Path,
    told: &mut Told<T>,
) -> Option<Literal>
    requires ready { IsReady (C.problem c.now) path.old.literals told.old.count
        (T.literals told.old.theory) (T.capacity told.old.theory) (T.takes told.old.theory)
        (T.models told.old.theory) T.meets }
    ensures ready { IsReady (C.problem c.now) path.new.literals told.new.count
        (T.literals told.new.theory) (T.capacity told.new.theory) (T.takes told.new.theory)
        (T.models told.new.theory) T.meets }
    ensures vars { path.new.vars ≡ path.old.vars }
    ensures literals { MatchOption result
        ((path.old.literals ≡ []) × (path.new.literals ≡ []))
        (λ l. path.old.literals ≡ path.new.literals ++ l ∷ []) }
    ensures fresh { IfSome result (λ l. (l.var < path.new.vars) ×
        (value_on path.new.literals l.var ≡ None)) }
{
    let last = path.pop()?;
    if told.count <= path.literals().len() {
        return Some(last);
    }
    told.count -= 1;
    untell(c, last, &mut told.theory);
    Some(last)
}
